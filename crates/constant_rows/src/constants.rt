// Constants by their rows.

/// A vector of constants, a row and a residue each.
pub struct Constants {
    pub entries: Vec<(u32, u32)>,
    /// The rows are below.
    pub width: usize,
}

// By hand, so that each drop of one is a call.
impl Drop for Constants {
    fn drop(self) {
        let Constants {
            entries: _,
            width: _,
        } = self;
    }
}
