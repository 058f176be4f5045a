// What a call answers.

use module_vectors::VectList;

/// A presentation of an Ext module.
pub struct Ext {
    /// The reduced basis of the kernel: its members generate the module.
    pub kernel: VectList,
    /// The reduced basis of the relations of these modulo the image.
    pub relations: VectList,
    /// Is each member of the kernel in the image?
    pub zero: bool,
}

// By hand, so that each drop of one is a call.
impl Drop for Ext {
    fn drop(self) {
        let Ext {
            kernel: _,
            relations: _,
            zero: _,
        } = self;
    }
}
