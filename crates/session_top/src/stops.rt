// The line that tells a stop.
ghost use Rattle.std.specs.Prelude.{◌≡◌, ◌<◌, ◌^◌, ◌++◌, OnOk, OnErr, drop};
ghost use Rattle.std.specs.Fmt.{decimal};
ghost use Rattle.std.specs.Io.KnownBytes.{Appends};
ghost use Rattle.monomials.specs.Weights.{first_weight};
ghost use Rattle.byte_ports.specs.Causes.{AppendsFront, HasCause};
ghost use Rattle.session_top.specs.Stops.{degree_by, degree_stop_line, pairs_line, stop_line, trail_degree};

use crate::early::Kept;
use basis_core::BasisState;
use byte_ports::{Failed, Sink, write_all_to};
use itoa::Buffer;
use module_vectors::KeptTrail;
use monomial_orders::{Mono, Weights};

/// The weight of the variable with this index, from 0: 1 where there is none.
fn weight_at(weights: &Weights, k: usize) -> u8
    ensures { result ≡ first_weight (drop k weights.now) }
{
    match weights.as_slice().get(k) {
        Some(weight) => *weight,
        None => 1,
    }
}

/// The degree of a monomial by these weights. Two such degrees fit: a weight has 8 bits, an exponent 16, and the number of
/// exponents 64.
fn degree_of(weights: &Weights, monomial: &Mono) -> u128
    ensures value { result ≡ degree_by weights.now monomial.now }
    ensures small { result < 2 ^ 88 }
{
    let exponents = monomial.exponents();
    let mut degree: u128 = 0;
    for k in 0..exponents.len() {
        degree += u128::from(weight_at(weights, k)) * u128::from(exponents[k]);
    }
    degree
}

/// The degree of the product that a trail leads to, by the weights of its ring; 0 for one without products.
fn trail_degree(trail: &KeptTrail) -> u128
    ensures { result ≡ trail_degree trail.now }
{
    let weights = &trail.ring.weights;
    match trail.products.split_last() {
        Some((step, _)) => degree_of(weights, &step.1) + degree_of(weights, &trail.last),
        None => 0,
    }
}

/// Writes a text and a number behind it. It takes no memory.
fn write_count<K: Sink>(sink: &mut K, text: &[u8], count: u128) -> Result<(), Failed>
    ensures all { OnOk result (Appends (K.taken sink.old) (K.taken sink.new) (text.now ++ decimal count)) }
    ensures front { OnErr result (AppendsFront (K.taken sink.old) (K.taken sink.new) (text.now ++ decimal count)) }
    ensures cause { HasCause (K.faults sink.old) (K.faults sink.new) result }
{
    let mut digits = Buffer::new();
    write_all_to(sink, text)?;
    write_all_to(sink, digits.format(count).as_bytes())
}

/// Writes the line of a stop by the budget: how many pairs were taken, and how many are queued. It takes no memory.
fn write_pairs_line<K: Sink>(sink: &mut K, state: &BasisState) -> Result<(), Failed>
    ensures all { OnOk result (Appends (K.taken sink.old) (K.taken sink.new) (pairs_line state.now)) }
    ensures front { OnErr result (AppendsFront (K.taken sink.old) (K.taken sink.new) (pairs_line state.now)) }
    ensures cause { HasCause (K.faults sink.old) (K.faults sink.new) result }
{
    write_count(sink, b"stop pairs ", u128::from(state.taken()))?;
    write_count(sink, b" queued ", state.queued().len() as u128)?;
    write_all_to(sink, b"\n")
}

/// Writes the line of a stop by the degree. It takes no memory.
fn write_degree_line<K: Sink>(sink: &mut K, trail: &KeptTrail) -> Result<(), Failed>
    ensures all { OnOk result (Appends (K.taken sink.old) (K.taken sink.new) (degree_stop_line trail.now)) }
    ensures front { OnErr result (AppendsFront (K.taken sink.old) (K.taken sink.new) (degree_stop_line trail.now)) }
    ensures cause { HasCause (K.faults sink.old) (K.faults sink.new) result }
{
    write_count(sink, b"stop degree ", trail_degree(trail))?;
    write_all_to(sink, b"\n")
}

/// Writes the line of a stop. It takes no memory.
pub fn write_stop_line<K: Sink>(sink: &mut K, kept: &Kept) -> Result<(), Failed>
    ensures all { OnOk result (Appends (K.taken sink.old) (K.taken sink.new) (stop_line kept.now.state kept.now.trail)) }
    ensures front { OnErr result (AppendsFront (K.taken sink.old) (K.taken sink.new) (stop_line kept.now.state kept.now.trail)) }
    ensures cause { HasCause (K.faults sink.old) (K.faults sink.new) result }
{
    match (&kept.state, &kept.trail) {
        (_, Some(trail)) => write_degree_line(sink, trail),
        (Some(state), None) => write_pairs_line(sink, state),
        (None, None) => Ok(()),
    }
}
