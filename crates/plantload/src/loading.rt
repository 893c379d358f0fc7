//! Loading, step by step.

ghost use Rattle.std.specs.Prelude.{◌≡◌, ℕ, ◌<◌, List, length, Result, None, IfErr, IfOk, IfSome, IsSome};
ghost use Rattle.std.specs.Prelude.{slice_get};
ghost use Rattle.std.specs.Arc.{arc_value};
ghost use Rattle.ilblocks.specs.Stores.{Store};
ghost use Rattle.ilsource.specs.SourceTrees.{Tree};
ghost use Rattle.iltext.specs.Parsing.{IsText};
ghost use Rattle.ilplan.specs.PlanMeaning.{plan_scan};
ghost use Rattle.ilsyms.specs.Meaning.{source_scan};
ghost use Rattle.ilsyms.specs.Resolved.{planned_functions, planned_task};
ghost use Rattle.ilsyms.specs.Tasks.{SourceTask};
ghost use Rattle.ilcode.specs.Paths.{IsBound};
ghost use Rattle.ilverify.specs.Certificates.{IsError};
ghost use Rattle.ilcompile.specs.Loaded.{AreCodes, IsCodeOf, Loaded, listing_for};
ghost use Rattle.plantload.specs.Loading.{IsCodeFault, IsLoadFault, IsLoaded, IsPlanFault};
ghost use Rattle.plantload.specs.Loading.{AreMeant, IsBehindText, IsLoadFaultOrMemory, IsPlanOfText};
ghost use Rattle.plantload.specs.Loading.{IsSetup};
ghost use Rattle.plantload.specs.PrintedFaults.{of_error, of_text};
ghost use Rattle.plantload.specs.declared.fault.LoadFault.{LoadFault};

use crate::fault::{LoadFault, NotLoaded, RefusedTask};
use ilcompile::{Setup, compile};
use ilplan::Plan;
use ilsource::Source;
use ilsyms::resolve;
use iltext::{TextFault, parse};
use ilverify::{Verified, VerifyError, verify};
use std::alloc::{AllocError, Global};
use std::sync::Arc;
use wordlines::Binding;

/// The plan of a text with the verified code of each of its tasks; or the text's first fault, else
/// the least fault of its names, else the first task whose code is refused.
///
/// # Errors
///
/// That fault, or that the allocator is out of memory.
pub fn load(alloc: Global, text: &[u8], binding: &Binding) -> Result<Setup, LoadFault>
    ensures setup { IfOk result (IsSetup binding.now text.now) }
    ensures fault { IfErr result (IsLoadFaultOrMemory (IsLoadFault binding.now text.now)) }
    // The runs of each task's code are the scans of its source program, both ways.
    ensures meant { IfOk result (λ setup. (is : IsSetup binding.now text.now setup)
        → AreMeant is.plan.tree binding.now.buses setup.codes) }
    // A scan of a task of the plan leaves what a scan over the source program's names leaves.
    ensures same_meaning { (tree : Tree) (buses : ℕ) (task : SourceTask) (store : Store)
        → plan_scan buses (planned_functions tree) (planned_task tree task) store
        ≡ source_scan tree buses task store }
    // A text has at most one answer, but for out of memory.
    ensures one { (a b : Result Loaded LoadFault) → IsLoaded binding.now text.now a
        → IsLoaded binding.now text.now b → a ≡ b }
{
    let plan = plan_of(alloc, text, binding)?;
    setup_of(alloc, plan)
}

/// The plan of a text, or the text's first fault, else the least fault of its names.
///
/// # Errors
///
/// That fault, or that the allocator is out of memory.
pub fn plan_of(alloc: Global, text: &[u8], binding: &Binding) -> Result<Plan, LoadFault>
    ensures plan { IfOk result (IsPlanOfText binding.now text.now) }
    ensures fault { IfErr result (IsLoadFaultOrMemory (IsPlanFault binding.now text.now)) }
{
    let source = parse(alloc, text)?;
    let plan = resolve(alloc, &source, binding)?;
    Ok(plan)
}

/// The setup of a text and its source program, which is read once; or the fault that [`load`] gives,
/// with the source program of a text that reads whole. The source program takes memory while codes
/// are verified.
///
/// # Errors
///
/// That fault, or that the allocator is out of memory.
pub fn load_with_source(
    alloc: Global,
    text: &[u8],
    binding: &Binding,
) -> Result<(Setup, Source), NotLoaded>
    ensures setup { IfOk result (λ loaded. IsSetup binding.now text.now loaded.0) }
    ensures spelled { IfOk result (λ loaded. IsText text.now loaded.1) }
    ensures fault { IfErr result (λ stop.
        IsLoadFaultOrMemory (IsLoadFault binding.now text.now) stop.fault) }
    ensures read { IfErr result (λ stop. IfSome stop.source (IsText text.now)) }
    // Of what stands behind the text's own faults, its source program comes with the fault.
    ensures whole { IfErr result (λ stop. IsBehindText stop.fault → IsSome stop.source) }
{
    let source = match parse(alloc, text) {
        Ok(source) => source,
        Err(fault) => return Err(unread(fault)),
    };
    match setup_of_source(alloc, &source, binding) {
        Ok(setup) => Ok((setup, source)),
        Err(fault) => Err(NotLoaded {
            fault,
            source: Some(source),
        }),
    }
}

/// Why a text is not loaded that does not read whole.
fn unread(fault: TextFault) -> NotLoaded
    ensures fault { result.fault ≡ of_text fault }
    ensures source { result.source ≡ None }
    ensures front { ¬ IsBehindText result.fault }
{
    NotLoaded {
        fault: LoadFault::from(fault),
        source: None,
    }
}

/// The setup of a source program, or the least fault of its names, else the first task whose code
/// is refused.
fn setup_of_source(alloc: Global, source: &Source, binding: &Binding) -> Result<Setup, LoadFault>
    ensures setup { (bytes : List ℕ) → IsText bytes source.now
        → IfOk result (IsSetup binding.now bytes) }
    ensures fault { (bytes : List ℕ) → IsText bytes source.now
        → IfErr result (IsLoadFaultOrMemory (IsLoadFault binding.now bytes)) }
{
    let plan = resolve(alloc, source, binding)?;
    setup_of(alloc, plan)
}

/// A plan with the verified code of each of its tasks, or the first task whose code is refused.
///
/// # Errors
///
/// That task with its refusal, or that the allocator is out of memory.
pub fn setup_of(alloc: Global, plan: Plan) -> Result<Setup, LoadFault>
    ensures plan { IfOk result (λ setup. setup.plan ≡ plan) }
    ensures codes { IfOk result (λ setup. AreCodes plan setup.codes) }
    ensures fault { IfErr result (IsLoadFaultOrMemory (IsCodeFault plan)) }
{
    let mut codes = Vec::new(alloc);
    for task in 0..plan.tasks() {
        match code_of(alloc, &plan, task) {
            Ok(code) => codes.push(code)?,
            Err(error) => return Err(fault_of(plan, task, error)),
        }
    }
    Ok(Setup::new(plan, codes))
}

/// Why a plan is not loaded of which the task of this number has no code.
fn fault_of(plan: Plan, task: usize, error: VerifyError) -> LoadFault
    requires { task < length plan.tasks }
    ensures { result ≡ of_error plan task error }
{
    match error {
        VerifyError::Memory(_) => LoadFault::Memory,
        VerifyError::Refused(refusal) => LoadFault::Code(RefusedTask::new(plan, task, refusal)),
    }
}

/// The verified code of the task of this number, or why it is refused.
fn code_of(alloc: Global, plan: &Plan, task: usize) -> Result<Arc<Verified>, VerifyError>
    requires { task < length plan.now.tasks }
    ensures code { IfOk result (λ code. IfSome (slice_get plan.now.tasks task)
        (λ t. IsCodeOf plan.now t (arc_value code))) }
    ensures error { IfErr result (λ error. IfSome (slice_get plan.now.tasks task)
        (λ t. IsError (listing_for plan.now t) error)) }
{
    let code = compile(alloc, plan, task).map_err(VerifyError::Memory)?;
    let verified = verify(alloc, code)?;
    let code = shared(alloc, verified).map_err(VerifyError::Memory)?;
    Ok(code)
}

/// The code, to be shared. Its bound is its greatest path.
fn shared(alloc: Global, verified: Verified) -> Result<Arc<Verified>, AllocError>
    ensures same { IfOk result (λ code. arc_value code ≡ verified) }
    ensures bound { IsBound verified.code verified.bound }
{
    let _ = verified.bound();
    Ok(Arc::new(alloc, verified)?)
}
