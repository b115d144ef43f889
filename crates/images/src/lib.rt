// The images of a point of the plane.
#![tactic(auto)]

mod image;

pub use image::{down_aperture3, down_aperture7, neighbor, rotate60, up_aperture7};
