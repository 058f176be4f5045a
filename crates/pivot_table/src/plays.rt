//! What each step on the words tells.
ghost use Rattle.std.specs.Prelude.{[], ◌++◌};
ghost use Rattle.pivot_table.specs.Law.{claimed, given_half, kept_half, looked_up, view};

use crate::View;
use atomic_table::{Join, Play, Split};

pub(crate) struct Claimed;

impl<S> Play<S, View> for Claimed {
    ghost then = { claimed };
}

pub(crate) struct Looked;

impl<S> Play<S, View> for Looked {
    ghost then = { looked_up };
}

pub(crate) struct Cut;

impl Split<View> for Cut {
    ghost left = { λ v. view v.leads v.told (kept_half v.shares) };

    ghost right = { λ v. view v.leads [] (given_half v.shares) };
}

pub(crate) struct Glue;

impl Join<View> for Glue {
    ghost both = { λ v w. view v.leads (v.told ++ w.told) (v.shares ++ w.shares) };

    ghost spent = { view [] [] [] };
}
