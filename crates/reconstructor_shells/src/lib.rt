// How a place that holds a declared struct is lent as `&mut`, and is back. A proof library: it has no code. The walks of the functions that are lent the segment list, and of the state's `counting`, stood here: the borrow checker covers those functions now.
#![tactic(auto)]
