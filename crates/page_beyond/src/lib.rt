// What stands beyond both documents, stated over their pages and proved from the workings. It has no code.
#![tactic(auto)]
