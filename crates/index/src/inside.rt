// What our own crates need of raw numbers. No entry stands here: this module is public only because it crosses our crates' border.
pub use crate::bits::{
    DIGITS_END, ONE_RESOLUTION, ONES, first_axe, get_direction, sel, set_direction,
};
