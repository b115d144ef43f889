// The C exports (include/rivetgnome.h): each passes on what its entry in `hexagons` answers, in a struct that `outward` makes of it; of the two senses of
// a turn the one that it is named for. They decide nothing but that five words which are no cursor are refusal 11.
#![tactic(auto)]

mod blocks;
mod cells;
mod cursors;
mod points;
mod steps;
mod version;
