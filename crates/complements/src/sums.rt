// Sums of products of residues.
ghost use Rattle.std.specs.Prelude.{◌<◌, IfOk};
ghost use Rattle.formal_sums.specs.FormalSums.{Each};

use module_vectors::NoMemory;
use std::alloc::Global;
use zp_field::Modulus;

// From here on a sum is reduced: below it there is room for the product of two residues more in 64 bits.
const GREAT: u64 = 1 << 63;

/// A sum for each number, and the numbers of those that may not be 0.
pub(crate) struct Sums {
    sums: Vec<u64>,
    noted: Vec<usize>,
}

// By hand, so that each drop of one is a call.
impl Drop for Sums {
    fn drop(self) {
        let Sums { sums: _, noted: _ } = self;
    }
}

impl Sums {
    /// Sums for so many numbers, all 0.
    pub(crate) fn new(alloc: Global, count: usize) -> Result<Sums, NoMemory> {
        Ok(Sums {
            sums: vec![in alloc; 0; count]?,
            noted: Vec::new(alloc),
        })
    }

    /// Adds the product to the sum with this number; past the end there is none.
    pub(crate) fn add(
        &mut self,
        modulus: &Modulus,
        at: usize,
        factor: u32,
        residue: u32,
    ) -> Result<(), NoMemory> {
        modulus.domain();
        if at >= self.sums.len() {
            return Ok(());
        }
        let sum = self.sums[at];
        if sum == 0 {
            self.noted.push(at)?;
        }
        let more = sum.wrapping_add(u64::from(factor).wrapping_mul(u64::from(residue)));
        self.sums[at] = if more < GREAT {
            more
        } else {
            more % u64::from(modulus.value())
        };
        Ok(())
    }

    /// The residue of the sum with this number.
    pub(crate) fn residue(&self, modulus: &Modulus, at: usize) -> u32
        ensures { result < modulus.now.value }
    {
        modulus.domain();
        if at >= self.sums.len() {
            return 0;
        }
        (self.sums[at] % u64::from(modulus.value())) as u32
    }

    /// Sets all sums to 0.
    pub(crate) fn clear(&mut self) {
        for k in 0..self.noted.len() {
            let at = self.noted[k];
            if at < self.sums.len() {
                self.sums[at] = 0;
            }
        }
        self.noted.clear();
    }

    /// The sums that are not 0, by their numbers. All are 0 from then on.
    pub(crate) fn take(
        &mut self,
        alloc: Global,
        modulus: &Modulus,
    ) -> Result<Vec<(usize, u32)>, NoMemory>
        ensures { IfOk result (λ taken. Each (λ e. e.1 < modulus.now.value) taken.items) }
    {
        let mut taken = Vec::new(alloc);
        for k in 0..self.noted.len() {
            let at = self.noted[k];
            let residue = self.residue(modulus, at);
            if residue != 0 {
                taken.push((at, residue))?;
            }
            if at < self.sums.len() {
                self.sums[at] = 0;
            }
        }
        self.noted.clear();
        Ok(taken)
    }
}
