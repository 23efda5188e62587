// Pieces in the order of their locations: whether they conflict, read off neighbours and the addresses inside a piece.
#![tactic(auto)]
