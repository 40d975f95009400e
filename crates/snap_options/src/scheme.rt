//! The colours of a picture: dark ink on a light ground, or light ink on a dark one.

/// The colours of a picture.
#[derive(Clone, Copy, PartialEq, Eq)]
pub enum Scheme {
    /// Dark ink on a light ground, as on paper.
    Light,
    /// Light ink on a dark ground, as on a screen at night.
    Dark,
}
