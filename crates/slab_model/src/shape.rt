/// The bytes of a zone and the size of its pages: all that decides how it is cut.
#[derive(Clone, Copy, Debug, PartialEq, Eq)]
pub struct Shape {
    /// The bytes of the zone.
    pub bytes: u64,
    /// The binary logarithm of a page's bytes.
    pub page_shift: u32,
}
