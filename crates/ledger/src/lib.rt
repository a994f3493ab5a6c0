// What a book says, transfer by transfer and account by account, and how each accepted call changes that. There is no code here.
#![tactic(auto)]
