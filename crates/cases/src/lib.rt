// The worked cases of documents 01 and 02 and the laws that documents cite: theorems only.

#![tactic(auto)]
