// Members that a state and its jobs share.
ghost use Rattle.std.specs.Prelude.{◌≡◌, ◌<◌, map, get_or, length, take, IfOk, OnOk, OnErr, [], ◌∷◌, ◌++◌};
ghost use Rattle.residues.specs.Residues.{IsDomain};
ghost use Rattle.formal_sums.specs.FormalSums.{Each};
ghost use Rattle.member_products.specs.Generators.{AreGenerators};
ghost use Rattle.basis_core.specs.Members.{AreRunMembers, IsRunMember, IsMemberShown, shared_of};
ghost use Rattle.std.specs.Arc.{arc_value};

use member_products::{RunMember, Shared};
use module_vectors::{NoMemory, Ring, Vect, VectList, Vectors};
use std::alloc::Global;
use std::marker::Model;
use std::sync::Arc;

/// Members over one ring, rank and list of generators. A member may stand in several lists at once, as in those of a
/// state and of its jobs. Contracts see ring, rank and generators, and the members.
pub struct Members {
    shared: Arc<Shared, Global>,
    handles: Vec<Arc<RunMember, Global>>,
}

// By hand, so that each drop of one is a call.
impl Drop for Members {
    fn drop(self) {
        let Members {
            shared: _,
            handles: _,
        } = self;
    }
}

impl Model for Members {
    ghost use Rattle.std.specs.Prelude.{map};
    ghost use Rattle.std.specs.Arc.{arc_value};
    ghost use Rattle.basis_core.specs.Members.{AreRunMembers, MembersShown, shared_of};

    ghost Value = { MembersShown };

    ghost view = { λ l. record { shared = shared_of (arc_value l.shared); list = map (λ h. arc_value h) l.handles.items } };

    ghost invariant = { λ l. AreRunMembers (shared_of (arc_value l.shared)) (map (λ h. arc_value h) l.handles.items) };
}

impl Members {
    /// No members yet, over this ring, rank and list of generators.
    pub fn new(alloc: Global, shared: Arc<Shared, Global>) -> Members
        ensures shared { result.shared ≡ shared_of (arc_value shared) }
        ensures list { result.list ≡ [] }
    {
        Members {
            shared,
            handles: Vec::new(alloc),
        }
    }

    /// Ring, rank and generators of the run.
    pub fn shared(&self) -> &Arc<Shared, Global>
        ensures { shared_of (arc_value result.now) ≡ self.now.shared }
    {
        &self.shared
    }

    /// The ring of the run.
    pub fn ring(&self) -> &Ring
        ensures { result.now ≡ self.now.shared.ring }
    {
        &self.shared.ring
    }

    /// The generators of the run, which are vectors of its ring and rank.
    pub fn generators(&self) -> &VectList
        ensures list { result.now ≡ self.now.shared.generators }
        ensures over { AreGenerators self.now.shared.ring self.now.shared.rank self.now.shared.generators }
    {
        &self.shared.generators
    }

    /// What holds of each list of members: their vectors are of its ring and rank.
    pub fn kept(&self)
        ensures { Each (IsMemberShown self.now.shared) self.now.list }
    {
        let _ = &self.handles;
    }

    /// What holds of each list of members: they are of vectors of its ring, rank and generators, and the products of each
    /// are of those before it.
    pub fn made(&self)
        ensures { AreRunMembers self.now.shared self.now.list }
    {
        let _ = &self.handles;
    }

    /// The residues modulo its ring's modulus are a domain. It does nothing: its contract is the law.
    pub(crate) fn domain(&self)
        ensures { IsDomain self.now.shared.ring.modulus.value }
    {
        self.shared().ring.modulus.domain();
    }

    /// How many members there are.
    pub fn len(&self) -> usize
        ensures { result ≡ length self.now.list }
    {
        self.handles.len()
    }

    /// A second list of the same members: their handles alone are copied.
    pub fn share(&self, alloc: Global) -> Result<Members, NoMemory>
        ensures { IfOk result (λ l. l ≡ self.now) }
    {
        let mut handles = Vec::with_capacity(alloc, self.handles.len())?;
        for handle in &self.handles {
            handles.push_reserved(Arc::try_clone(handle)?);
        }
        Ok(Members {
            shared: Arc::try_clone(&self.shared)?,
            handles,
        })
    }

    /// The member with this index.
    pub fn get(&self, index: usize) -> &RunMember
        requires { index < length self.now.list }
        ensures over { IsRunMember self.now.shared index result.now }
        ensures terms { result.now ≡ get_or self.now.list index result.now }
    {
        &self.handles[index]
    }

    /// Appends a member. After an error the list is as before.
    pub(crate) fn push(&mut self, alloc: Global, member: RunMember) -> Result<(), NoMemory>
        requires { IsRunMember self.old.shared (length self.old.list) member }
        ensures shared { self.new.shared ≡ self.old.shared }
        ensures ok { OnOk result (self.new.list ≡ self.old.list ++ member ∷ []) }
        ensures err { OnErr result (self.new ≡ self.old) }
    {
        let handle = Arc::new(alloc, member)?;
        self.handles.push(handle)?;
        Ok(())
    }

    /// Drops the members from this index on.
    pub(crate) fn truncate(&mut self, count: usize)
        ensures shared { self.new.shared ≡ self.old.shared }
        ensures list { self.new.list ≡ take count self.old.list }
    {
        self.handles.truncate(count);
    }
}

impl Vectors for Members {
    ghost listed = { λ l. map (λ m. m.vector) l.list };

    fn count(&self) -> usize {
        self.handles.len()
    }

    fn at(&self, index: usize) -> &Vect {
        &self.handles[index].vector
    }
}
