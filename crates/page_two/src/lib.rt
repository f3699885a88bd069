// Document 02 on one page, over document 01's, and that the library's definitions are the page's; no code.
#![tactic(auto)]
