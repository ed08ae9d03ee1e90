//! Why cash is not shared.

#[derive(Clone, Copy, PartialEq, Eq, Debug)]
pub enum SharingRefusal {
    /// Not one part for each value.
    Lengths,
    /// A total of the values that passes 64 bits.
    Total,
    /// Cash over 10^12.
    Cash,
}
