// A vector with its cofactors.
ghost use Rattle.std.specs.Arc.{arc_value};
ghost use Rattle.cofactor_track.specs.Members.{IsCombined};
ghost use Rattle.cofactor_track.specs.Propositions.{IsCombined-prop};

use crate::changes::{subtract_vector, times_vector, unit_vector};
use member_products::Shared;
use module_vectors::{NoMemory, Vect, VectStop};
use monomial_orders::Mono;
use std::alloc::Global;
use std::sync::Arc;

/// A vector of a run's module and its cofactors over the run's generators, of which it is the combination: position i
/// of `cof` has the cofactor of generator i.
pub struct Member {
    pub shared: Arc<Shared, Global>,
    pub vector: Vect,
    pub cof: Vect,
    pub ghost combined: { IsCombined (arc_value shared).ring (arc_value shared).rank (arc_value shared).generators vector cof } by { IsCombined-prop (arc_value shared).ring (arc_value shared).rank (arc_value shared).generators vector cof },
}

// By hand, so that each drop of one is a call.
impl Drop for Member {
    fn drop(self) {
        let Member {
            shared: _,
            vector: _,
            cof: _,
        } = self;
    }
}

impl Member {
    ghost use Rattle.std.specs.Prelude.{◌≡◌, ◌<◌, ℕ, List, [], get_or, length, IfOk, IfErr, OnOk, OnErr};
    ghost use Rattle.term_lists.specs.Stops.{Fits};
    ghost use Rattle.term_lists.specs.Vectors.{IsMonomialOver};
    ghost use Rattle.cofactor_track.specs.Changes.{ChangeStops, IsLess, IsScaled, IsTimes, IsUnitVector};

    /// Generator i, with the cofactors e_i.
    pub fn from_generator(
        alloc: Global,
        shared: &Arc<Shared, Global>,
        i: u64,
    ) -> Result<Member, NoMemory>
        requires { i < length (arc_value shared.now).generators }
        ensures shared { IfOk result (λ m. arc_value m.shared ≡ arc_value shared.now) }
        ensures vector { IfOk result (λ m. m.vector ≡ get_or (arc_value shared.now).generators i []) }
        ensures cofactors { IfOk result (λ m. IsUnitVector (arc_value shared.now).ring i m.cof) }
    {
        let shared = Arc::try_clone(shared)?;
        let vector = shared.generators.as_slice()[i as usize].try_copy(alloc)?;
        let cof = unit_vector(alloc, &shared.ring, i)?;
        Ok(Member {
            shared,
            vector,
            cof,
        })
    }

    /// Multiplies by a residue that is not 0.
    pub fn scale(&mut self, c: u32)
        requires nonzero { 0 < c }
        requires factor { c < (arc_value self.old.shared).ring.modulus.value }
        ensures shared { arc_value self.new.shared ≡ arc_value self.old.shared }
        ensures vector { IsScaled (arc_value self.old.shared).ring c self.old.vector self.new.vector }
        ensures cofactors { IsScaled (arc_value self.old.shared).ring c self.old.cof self.new.cof }
    {
        self.vector.scale(&self.shared.ring, c);
        self.cof.scale(&self.shared.ring, c);
    }

    /// t times this member.
    pub fn times(&self, alloc: Global, t: &Mono) -> Result<Member, VectStop>
        requires { IsMonomialOver (arc_value self.now.shared).ring t.now }
        ensures shared { IfOk result (λ m. arc_value m.shared ≡ arc_value self.now.shared) }
        ensures vector { IfOk result (λ m. IsTimes (arc_value self.now.shared).ring t.now self.now.vector m.vector) }
        ensures cofactors { IfOk result (λ m. IsTimes (arc_value self.now.shared).ring t.now self.now.cof m.cof) }
        ensures fits { OnOk result (Fits t.now self.now.vector × Fits t.now self.now.cof) }
        ensures stop { IfErr result (ChangeStops 1 t.now self.now.vector self.now.cof) }
    {
        let shared = Arc::try_clone(&self.shared)?;
        let vector = times_vector(alloc, &shared.ring, t, &self.vector)?;
        let cof = times_vector(alloc, &shared.ring, t, &self.cof)?;
        Ok(Member {
            shared,
            vector,
            cof,
        })
    }

    /// Takes c t times the other member from this one. After an error it is as before.
    pub fn subtract(
        &mut self,
        alloc: Global,
        c: u32,
        t: &Mono,
        other: &Member,
    ) -> Result<(), VectStop>
        requires shared { arc_value other.now.shared ≡ arc_value self.old.shared }
        requires factor { c < (arc_value self.old.shared).ring.modulus.value }
        requires variables { IsMonomialOver (arc_value self.old.shared).ring t.now }
        ensures shared { arc_value self.new.shared ≡ arc_value self.old.shared }
        ensures vector { OnOk result (IsLess (arc_value self.old.shared).ring c t.now self.old.vector other.now.vector self.new.vector) }
        ensures cofactors { OnOk result (IsLess (arc_value self.old.shared).ring c t.now self.old.cof other.now.cof self.new.cof) }
        ensures fits { OnOk result (0 < c → Fits t.now other.now.vector × Fits t.now other.now.cof) }
        ensures stop { IfErr result (ChangeStops c t.now other.now.vector other.now.cof) }
        ensures vector_kept { OnErr result (self.new.vector ≡ self.old.vector) }
        ensures cofactors_kept { OnErr result (self.new.cof ≡ self.old.cof) }
    {
        // The vector, mostly the shorter of the two, is changed in a copy: so an error leaves both as they were.
        let mut vector = self.vector.try_copy(alloc)?;
        subtract_vector(alloc, &self.shared.ring, &mut vector, c, t, &other.vector)?;
        subtract_vector(alloc, &self.shared.ring, &mut self.cof, c, t, &other.cof)?;
        self.vector = vector;
        Ok(())
    }
}
