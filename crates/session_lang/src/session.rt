// What the lines of a script do, one after another.
ghost use Rattle.std.specs.Prelude.{◌≡◌, ◌≤◌, Err, IfErr, IfOk, Ok, OnErr, OnOk};
ghost use Rattle.groebner_iface.specs.Calls.{CallStops};
ghost use Rattle.session_lang.specs.Lines.{RunOf};
ghost use Rattle.session_lang.specs.Runs.{RunsLine, RunsStated};
ghost use Rattle.session_lang.specs.Stops.{Steps, TrailOf};
ghost use Rattle.session_reports.specs.declared.step.Step.TheVariants as steps;

use groebner_iface::{Groebner, OpStop};
use line_text::LineText;
use module_vectors::{NoMemory, Ring, Vect, VectList};
use script_parse::{NameInfo, NameTable, Operation, ParseStop, Statement, statement};
use session_reports::{
    Question, Report, Step, answer_value, compare_values, extend_value, push_expression, push_lift,
    report_value,
};
use session_values::{Stored, Task, give_name, operate, push_line, push_listing, rank_of_result};
use std::alloc::Global;
use std::marker::Model;
use std::sync::Wait;
use std::thread::Threads;

/// A value with the ring that is stated.
#[derive(Clone, Copy)]
struct Found<'a> {
    ring: &'a Ring,
    info: &'a NameInfo,
    stored: &'a Stored,
}

/// The rank and the stored list of a value.
#[derive(Clone, Copy)]
struct Operand<'a> {
    rank: u64,
    list: &'a VectList,
}

/// What is kept from line to line: the ring, once one is stated, and the values by name. Contracts see of a value its
/// name, its rank, its list as it was typed or as an operation gave it, and whether its reduced basis is kept.
pub struct Session {
    ring: Option<Ring>,
    names: NameTable,
    stored: Vec<Stored>,
}

// By hand, so that each drop of one is a call.
impl Drop for Session {
    fn drop(self) {
        let Session {
            ring: _,
            names: _,
            stored: _,
        } = self;
    }
}

// What became of the line for which a call was made.
fn done(called: Result<(), OpStop>) -> Result<Step, OpStop>
    ensures ok { OnOk called (result ≡ Ok steps.Done) }
    ensures err { IfErr called (λ stop. result ≡ Err stop) }
{
    match called {
        Ok(()) => Ok(Step::Done),
        Err(stop) => Err(stop),
    }
}

impl Model for Session {
    ghost use Rattle.session_values.specs.Kept.{AreKept, values_of};
    ghost use Rattle.session_values.specs.Names.{ScriptState};

    ghost Value = { ScriptState };

    ghost view = { λ s. record { ring = s.ring; values = values_of s.names s.stored.items } };

    ghost invariant = { λ s. AreKept s.ring s.names s.stored.items };
}

impl Session {
    ghost use Rattle.std.specs.Prelude.{◌++◌, List, Some, [], is_some, string_bytes, ℕ};
    ghost use Rattle.term_lists.specs.declared.ring.Ring.{Ring as RingValue};
    ghost use Rattle.script_parse.specs.declared.stated.Statement.TheVariants as statements;
    ghost use Rattle.session_reports.specs.Asking.{asked_of};
    ghost use Rattle.session_lang.specs.Fitting.{IsFit, IsGiven, IsOperable};
    ghost use Rattle.session_values.specs.Kept.{IsSound, value_of};
    ghost use Rattle.session_values.specs.Names.{HasValue, after_giving, no_names};
    ghost use Rattle.session_values.specs.Operations.{WorksOn};
    ghost use Rattle.session_lang.specs.Performing.{Performed, PerformedAlone, asking, reporting};
    ghost use Rattle.session_values.specs.Tasks.{IsOperand, IsReady, work_of};

    /// A session in which no ring is stated and nothing has a name.
    pub fn new(alloc: Global) -> Session
        ensures { result ≡ no_names }
    {
        Session {
            ring: None,
            names: NameTable::new(alloc),
            stored: Vec::new(alloc),
        }
    }

    // Prints a polynomial.
    fn show(&self, alloc: Global, shown: &Vect, out: &mut LineText) -> Result<Step, OpStop>
        requires { IsFit self.now (statements.Show shown.now) }
        ensures { PerformedAlone self.now (statements.Show shown.now) self.now out.old out.new result }
    {
        let Some(ring) = &self.ring else {
            unreachable!()
        };
        match push_line(alloc, out, ring, 1, shown) {
            Ok(()) => Ok(Step::Done),
            Err(_) => Err(OpStop::Memory),
        }
    }

    // Prints the stored list of a value.
    fn list(&self, alloc: Global, name: &String, out: &mut LineText) -> Result<Step, OpStop>
        requires { IsFit self.now (statements.Gens name.now) }
        ensures { PerformedAlone self.now (statements.Gens name.now) self.now out.old out.new result }
    {
        let value = self.found(name.as_bytes());
        match push_listing(
            alloc,
            out,
            b"gens",
            value.info.name.as_bytes(),
            value.ring,
            value.info.rank,
            value.stored.list(),
        ) {
            Ok(()) => Ok(Step::Done),
            Err(_) => Err(OpStop::Memory),
        }
    }

    // Prints the answer to a question of a value.
    fn ask<R: Threads + Wait + Sync, B: Groebner>(
        &mut self,
        rt: &R,
        alloc: Global,
        engine: &mut B,
        name: &String,
        question: Question<'_>,
        out: &mut LineText,
    ) -> Result<Step, OpStop>
        requires { IsFit self.old (asking name.now (asked_of question)) }
        ensures performed { Performed self.old (asking name.now (asked_of question.entry)) self.new out.old out.new
            (B.stops engine.old) (B.stops engine.new) (B.stopped engine.old) (B.stopped engine.new) result }
        ensures later { B.stops engine.old ≤ B.stops engine.new }
        ensures runs { RunsStated self.old (asking name.now (asked_of question.entry)) (B.runs engine.old) (B.runs engine.new) }
        ensures settings { B.settings engine.new ≡ B.settings engine.old }
    {
        let Some(ring) = &self.ring else {
            unreachable!()
        };
        let Some(i) = self.names.place_of(name.as_bytes()) else {
            unreachable!()
        };
        done(answer_value(
            rt,
            alloc,
            engine,
            ring,
            self.names.info_at(i),
            &mut self.stored[i],
            question,
            out,
        ))
    }

    // Prints whether two values generate one module.
    fn compare<R: Threads + Wait + Sync, B: Groebner>(
        &mut self,
        rt: &R,
        alloc: Global,
        engine: &mut B,
        first: &String,
        second: &String,
        out: &mut LineText,
    ) -> Result<Step, OpStop>
        requires { IsFit self.old (statements.Equal first.now second.now) }
        ensures performed { Performed self.old (statements.Equal first.now second.now) self.new out.old out.new
            (B.stops engine.old) (B.stops engine.new) (B.stopped engine.old) (B.stopped engine.new) result }
        ensures later { B.stops engine.old ≤ B.stops engine.new }
        ensures runs { RunsStated self.old (statements.Equal first.now second.now) (B.runs engine.old) (B.runs engine.new) }
        ensures settings { B.settings engine.new ≡ B.settings engine.old }
    {
        let Some(ring) = &self.ring else {
            unreachable!()
        };
        let Some(i) = self.names.place_of(first.as_bytes()) else {
            unreachable!()
        };
        let Some(j) = self.names.place_of(second.as_bytes()) else {
            unreachable!()
        };
        done(compare_values(
            rt,
            alloc,
            engine,
            ring,
            &self.names,
            &mut self.stored,
            (i, j),
            out,
        ))
    }

    // States a ring, and takes all names away.
    fn state_ring(&mut self, ring: Ring)
        ensures { self.new ≡ record { ring = Some ring; values = [] } }
    {
        self.names.clear();
        self.stored.clear();
        self.ring = Some(ring);
    }

    // The value with this name.
    fn found(&self, name: &[u8]) -> Found<'_>
        requires { IsGiven self.now name.now }
        ensures has { HasValue self.now name.now result.ring.now (value_of result.info.now result.stored.now) }
        ensures sound { IsSound result.ring.now result.info.now.rank result.stored.now }
    {
        let Some(ring) = &self.ring else {
            unreachable!()
        };
        let Some(i) = self.names.place_of(name) else {
            unreachable!()
        };
        Found {
            ring,
            info: self.names.info_at(i),
            stored: &self.stored[i],
        }
    }

    // Gives a name to a list.
    fn give(&mut self, name: String, rank: u64, value: Stored) -> Result<(), NoMemory>
        requires { (ring : RingValue) × (self.old.ring ≡ Some ring) × IsSound ring rank value }
        ensures named { OnOk result (self.new
            ≡ after_giving (record { name = string_bytes name; rank = rank; list = value.list; kept = is_some value.basis }) self.old) }
        ensures same { OnErr result (self.new ≡ self.old) }
    {
        give_name(&mut self.names, &mut self.stored, name, rank, value)
    }

    // Gives a name to a list that was typed.
    fn define(&mut self, name: String, rank: u64, list: VectList) -> Result<Step, OpStop>
        requires { IsFit self.old (statements.Module name rank list) }
        ensures { (text : List ℕ) → PerformedAlone self.old (statements.Module name rank list) self.new text text result }
    {
        match self.give(name, rank, Stored::of(list)) {
            Ok(()) => Ok(Step::Done),
            Err(_) => Err(OpStop::Memory),
        }
    }

    // The rank and the stored list of the value with this name.
    fn operand(&self, name: &String) -> Operand<'_>
        requires { IsGiven self.now (string_bytes name.now) }
        ensures { (ring : RingValue) → self.now.ring ≡ Some ring → IsOperand self.now name.now ring result.rank result.list.now }
    {
        let value = self.found(name.as_bytes());
        Operand {
            rank: value.info.rank,
            list: value.stored.list(),
        }
    }

    // What is to be done for the operation.
    fn task<'a>(&'a self, operation: &'a Operation) -> Task<'a>
        requires { IsOperable self.now operation.now }
        ensures { (ring : RingValue) → self.now.ring ≡ Some ring → WorksOn self.now operation.now ring (work_of result) × IsReady ring (work_of result) }
    {
        match operation {
            Operation::Sum(a, b) => {
                let left = self.operand(a);
                let right = self.operand(b);
                Task::Sum(left.rank, left.list, right.list)
            }
            Operation::Product(a, b) => {
                let left = self.operand(a);
                let right = self.operand(b);
                Task::Product(right.rank, left.list, right.list)
            }
            Operation::Intersect(a, b) => {
                let left = self.operand(a);
                let right = self.operand(b);
                Task::Intersect(left.rank, left.list, right.list)
            }
            Operation::Colon(a, b) => {
                let left = self.operand(a);
                let right = self.operand(b);
                Task::Colon(left.rank, left.list, right.list)
            }
            Operation::Quotient(a, f) => {
                let value = self.operand(a);
                Task::Quotient(value.rank, value.list, f)
            }
            Operation::Saturate(a, f) => {
                let value = self.operand(a);
                Task::Saturate(value.rank, value.list, f)
            }
            Operation::Eliminate(a, k) => {
                let value = self.operand(a);
                Task::Eliminate(value.rank, value.list, *k)
            }
            Operation::Syzygies(a) => {
                let value = self.operand(a);
                Task::Syzygies(value.rank, value.list)
            }
            Operation::Preimage(a, images) => {
                let value = self.operand(a);
                Task::Preimage(images, value.list)
            }
        }
    }

    // Gives a name to the result of an operation.
    fn make<R: Threads + Wait + Sync, B: Groebner>(
        &mut self,
        rt: &R,
        alloc: Global,
        engine: &mut B,
        name: String,
        operation: &Operation,
    ) -> Result<Step, OpStop>
        requires { IsFit self.old (statements.Let name operation.now) }
        ensures performed { (text : List ℕ) → Performed self.old (statements.Let name operation.now) self.new text text
            (B.stops engine.old) (B.stops engine.new) (B.stopped engine.old) (B.stopped engine.new) result }
        ensures later { B.stops engine.old ≤ B.stops engine.new }
        ensures runs { RunsStated self.old (statements.Let name operation.now) (B.runs engine.old) (B.runs engine.new) }
        ensures settings { B.settings engine.new ≡ B.settings engine.old }
    {
        let Some(ring) = &self.ring else {
            unreachable!()
        };
        let task = self.task(operation);
        let rank = rank_of_result(task);
        let list = match operate(rt, alloc, engine, ring, task) {
            Ok(list) => list,
            Err(stop) => return Err(stop),
        };
        match self.give(name, rank, Stored::of_basis(list)) {
            Ok(()) => Ok(Step::Done),
            Err(_) => Err(OpStop::Memory),
        }
    }

    // Prints the lift of a vector to the list of a value.
    fn lift<R: Threads + Wait + Sync, B: Groebner>(
        &self,
        rt: &R,
        alloc: Global,
        engine: &mut B,
        name: &String,
        v: &Vect,
        out: &mut LineText,
    ) -> Result<Step, OpStop>
        requires { IsFit self.now (statements.Lift name.now v.now) }
        ensures performed { Performed self.now (statements.Lift name.now v.now) self.now out.old out.new
            (B.stops engine.old) (B.stops engine.new) (B.stopped engine.old) (B.stopped engine.new) result }
        ensures later { B.stops engine.old ≤ B.stops engine.new }
        ensures runs { RunsStated self.now (statements.Lift name.now v.now) (B.runs engine.old) (B.runs engine.new) }
        ensures settings { B.settings engine.new ≡ B.settings engine.old }
    {
        let value = self.found(name.as_bytes());
        done(push_lift(
            rt,
            alloc,
            engine,
            value.ring,
            value.info,
            value.stored,
            v,
            out,
        ))
    }

    // Prints a polynomial by others.
    fn express<R: Threads + Wait + Sync, B: Groebner>(
        &self,
        rt: &R,
        alloc: Global,
        engine: &mut B,
        f: &Vect,
        images: &VectList,
        out: &mut LineText,
    ) -> Result<Step, OpStop>
        requires { IsFit self.now (statements.Express f.now images.now) }
        ensures performed { Performed self.now (statements.Express f.now images.now) self.now out.old out.new
            (B.stops engine.old) (B.stops engine.new) (B.stopped engine.old) (B.stopped engine.new) result }
        ensures later { B.stops engine.old ≤ B.stops engine.new }
        ensures runs { RunsStated self.now (statements.Express f.now images.now) (B.runs engine.old) (B.runs engine.new) }
        ensures settings { B.settings engine.new ≡ B.settings engine.old }
    {
        let Some(ring) = &self.ring else {
            unreachable!()
        };
        done(push_expression(rt, alloc, engine, ring, images, f, out))
    }

    // Prints an Ext module of a value.
    fn extend<R: Threads + Wait + Sync, B: Groebner>(
        &mut self,
        rt: &R,
        alloc: Global,
        engine: &mut B,
        name: &String,
        step: u64,
        out: &mut LineText,
    ) -> Result<Step, OpStop>
        requires { IsFit self.old (statements.Ext name.now step) }
        ensures performed { Performed self.old (statements.Ext name.now step) self.new out.old out.new
            (B.stops engine.old) (B.stops engine.new) (B.stopped engine.old) (B.stopped engine.new) result }
        ensures later { B.stops engine.old ≤ B.stops engine.new }
        ensures runs { RunsStated self.old (statements.Ext name.now step) (B.runs engine.old) (B.runs engine.new) }
        ensures settings { B.settings engine.new ≡ B.settings engine.old }
    {
        let Some(ring) = &self.ring else {
            unreachable!()
        };
        let Some(i) = self.names.place_of(name.as_bytes()) else {
            unreachable!()
        };
        done(extend_value(
            rt,
            alloc,
            engine,
            ring,
            self.names.info_at(i),
            &mut self.stored[i],
            step,
            out,
        ))
    }

    // Prints the report of a value, or says for which kind it is refused.
    fn report<R: Threads + Wait + Sync, B: Groebner>(
        &mut self,
        rt: &R,
        alloc: Global,
        engine: &mut B,
        name: &String,
        report: Report,
        out: &mut LineText,
    ) -> Result<Step, OpStop>
        requires { IsFit self.old (reporting name.now report) }
        ensures performed { Performed self.old (reporting name.now report) self.new out.old out.new
            (B.stops engine.old) (B.stops engine.new) (B.stopped engine.old) (B.stopped engine.new) result }
        ensures later { B.stops engine.old ≤ B.stops engine.new }
        ensures runs { RunsStated self.old (reporting name.now report) (B.runs engine.old) (B.runs engine.new) }
        ensures settings { B.settings engine.new ≡ B.settings engine.old }
    {
        let Some(ring) = &self.ring else {
            unreachable!()
        };
        let Some(i) = self.names.place_of(name.as_bytes()) else {
            unreachable!()
        };
        report_value(
            rt,
            alloc,
            engine,
            ring,
            self.names.info_at(i),
            &mut self.stored[i],
            report,
            out,
        )
    }

    // Does what a line states. Each kind of statement has its own call, which answers for the statement.
    fn perform<R: Threads + Wait + Sync, B: Groebner>(
        &mut self,
        rt: &R,
        alloc: Global,
        engine: &mut B,
        stated: Statement,
        out: &mut LineText,
    ) -> Result<Step, OpStop>
        requires fit { IsFit self.old stated }
        ensures performed { Performed self.old stated self.new out.old out.new
            (B.stops engine.old) (B.stops engine.new) (B.stopped engine.old) (B.stopped engine.new) result }
        ensures later { B.stops engine.old ≤ B.stops engine.new }
        ensures runs { RunsStated self.old stated (B.runs engine.old) (B.runs engine.new) }
        ensures settings { B.settings engine.new ≡ B.settings engine.old }
    {
        match stated {
            Statement::Nothing => Ok(Step::Done),
            Statement::Ring(ring) => {
                self.state_ring(ring);
                Ok(Step::Done)
            }
            Statement::Show(shown) => self.show(alloc, &shown, out),
            Statement::Ideal(name, list) => self.define(name, 1, list),
            Statement::Module(name, rank, list) => self.define(name, rank, list),
            Statement::Let(name, operation) => self.make(rt, alloc, engine, name, &operation),
            Statement::Gens(name) => self.list(alloc, &name, out),
            Statement::Gb(name) => self.ask(rt, alloc, engine, &name, Question::Basis, out),
            Statement::Size(name) => self.ask(rt, alloc, engine, &name, Question::Sizes, out),
            Statement::NormalForm(name, v) => {
                self.ask(rt, alloc, engine, &name, Question::NormalForm(&v), out)
            }
            Statement::Member(name, v) => {
                self.ask(rt, alloc, engine, &name, Question::Member(&v), out)
            }
            Statement::Lift(name, v) => self.lift(rt, alloc, engine, &name, &v, out),
            Statement::Hilbert(name) => {
                self.report(rt, alloc, engine, &name, Report::Numbers, out)
            }
            Statement::Resolution(name) => {
                self.report(rt, alloc, engine, &name, Report::Resolution, out)
            }
            Statement::Minimal(name) => {
                self.report(rt, alloc, engine, &name, Report::Minimal, out)
            }
            Statement::Betti(name) => { self.report(rt, alloc, engine, &name, Report::Betti, out) }
            Statement::Regularity(name) => {
                self.report(rt, alloc, engine, &name, Report::Regularity, out)
            }
            Statement::Change(name, order) => {
                self.report(rt, alloc, engine, &name, Report::InOrder(order), out)
            }
            Statement::Express(f, images) => self.express(rt, alloc, engine, &f, &images, out),
            Statement::Ext(name, step) => self.extend(rt, alloc, engine, &name, step, out),
            Statement::Equal(first, second) => {
                self.compare(rt, alloc, engine, &first, &second, out)
            }
        }
    }

    /// Does a line and appends its text, or answers the first kind of refusal that holds of it.
    ///
    /// `Memory` comes where a growth was refused, while the line was read or done; `Pairs` and `Degree` where a run that
    /// the line needs met its budget or needed a product of degree above 65,535; `Trail`, with the chain of products
    /// to it, where a division by a reduced basis, a list that the line makes, a resolution or its cancellation needed one. After a refusal and after each error session and text are as
    /// before, so no basis is kept that was not. The engine counts and keeps a run that stopped; else its count and the
    /// run that it keeps are as before, and its settings always are. It is run once at most for the basis of a value, and for a
    /// line that is refused as it is read not at all.
    pub fn step<R: Threads + Wait + Sync, B: Groebner>(
        &mut self,
        rt: &R,
        alloc: Global,
        engine: &mut B,
        line: &[u8],
        out: &mut LineText,
    ) -> Result<Step, OpStop>
        ensures steps { IfOk result (Steps self.old line.now self.new out.old out.new) }
        ensures same { OnErr result (self.new ≡ self.old) }
        ensures unwritten { OnErr result (out.new ≡ out.old) }
        ensures engine { OnOk result ((B.stops engine.new ≡ B.stops engine.old) × (B.stopped engine.new ≡ B.stopped engine.old)) }
        ensures stop { IfErr result (CallStops (RunOf self.old line.now) (TrailOf self.old line.now)
            (B.stops engine.old) (B.stops engine.new) (B.stopped engine.old) (B.stopped engine.new)) }
        ensures later { B.stops engine.old ≤ B.stops engine.new }
        ensures runs { RunsLine self.old line.now (B.runs engine.old) (B.runs engine.new) }
        ensures settings { B.settings engine.new ≡ B.settings engine.old }
    {
        match statement(alloc, line, self.ring.as_ref(), &self.names) {
            Ok(stated) => self.perform(rt, alloc, engine, stated, out),
            Err(ParseStop::Refused(kind)) => Ok(Step::Refused(kind)),
            Err(ParseStop::Memory) => Err(OpStop::Memory),
        }
    }
}
