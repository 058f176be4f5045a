// What is kept of a value beside its name.
ghost use Rattle.std.specs.Prelude.{◌≡◌, IsSome, None, Some, is_some, not};

use module_vectors::VectList;
use std::marker::Model;

/// What is known of the reduced basis of a list.
#[derive(Drop)]
pub enum Basis {
    /// No run has found it yet.
    Unknown,
    /// The list is its own.
    Itself,
    /// A run found this one.
    Found(VectList),
}

/// A value's list as it was given, and its reduced basis once it is known. Contracts see both as lists.
pub struct Stored {
    list: VectList,
    basis: Basis,
}

// By hand, so that each drop of one is a call.
impl Drop for Stored {
    fn drop(self) {
        let Stored { list: _, basis: _ } = self;
    }
}

impl Model for Stored {
    ghost use Rattle.session_values.specs.Held.{StoredShown, basis_of};

    ghost Value = { StoredShown };

    ghost view = { λ s. record { list = s.list; basis = basis_of s.list s.basis } };
}

impl Stored {
    /// A list whose basis is not known.
    pub fn of(list: VectList) -> Stored
        ensures { result ≡ record { list = list; basis = None } }
    {
        Stored {
            list,
            basis: Basis::Unknown,
        }
    }

    /// A list that is its own reduced basis.
    pub fn of_basis(list: VectList) -> Stored
        ensures { result ≡ record { list = list; basis = Some list } }
    {
        Stored {
            list,
            basis: Basis::Itself,
        }
    }

    /// The list.
    pub fn list(&self) -> &VectList
        ensures { result.now ≡ self.now.list }
    {
        &self.list
    }

    /// Is the basis known?
    pub fn has_basis(&self) -> bool
        ensures { result ≡ is_some self.now.basis }
    {
        match &self.basis {
            Basis::Unknown => false,
            Basis::Itself => true,
            Basis::Found(_) => true,
        }
    }

    /// Is the basis not known yet?
    pub fn lacks_basis(&self) -> bool
        ensures { is_some self.now.basis ≡ not result }
    {
        !self.has_basis()
    }

    /// The basis that is known.
    pub fn basis(&self) -> &VectList
        requires { IsSome self.now.basis }
        ensures { self.now.basis ≡ Some result.now }
    {
        match &self.basis {
            Basis::Unknown => unreachable!(),
            Basis::Itself => &self.list,
            Basis::Found(basis) => basis,
        }
    }

    /// Keeps the basis from now on.
    pub fn keep(&mut self, basis: VectList)
        ensures { self.new ≡ record { list = self.old.list; basis = Some basis } }
    {
        self.basis = Basis::Found(basis);
    }

    /// Forgets the basis.
    pub fn forget(&mut self)
        ensures { self.new ≡ record { list = self.old.list; basis = None } }
    {
        self.basis = Basis::Unknown;
    }
}
