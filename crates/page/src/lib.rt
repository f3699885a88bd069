// Document 01 on one page, and that the library's definitions are the page's; no code.
#![tactic(auto)]
