//! Configurations (IEC 61131-3, 2.7.1).

ghost use Rattle.std.specs.Prelude.{◌≡◌};
ghost use Rattle.iltokens.specs.Items.{begins, opt};
ghost use Rattle.iltokens.specs.Results.{Gives};
ghost use Rattle.ilsource.specs.Configurations.{configured_of};
ghost use Rattle.iltext.specs.Configurations.{body, resource_head, resource};
ghost use Rattle.iltext.specs.Configurations.{contents, configuration};

use crate::globals::global_blocks;
use crate::reading::{begins_word, spaced_name, spaced_word};
use crate::tasks::{program_instances, tasks};
use crate::token::Token;
use ilsource::{Configuration, GlobalDeclaration, InstanceDeclaration, TaskDeclaration};
use iltokens::{Keyword, ReadError};
use std::alloc::Global;

/// The tasks and the program instances of a configuration.
#[derive(Drop)]
struct Schedule {
    tasks: Vec<TaskDeclaration>,
    instances: Vec<InstanceDeclaration>,
}

/// What stands between the globals of a configuration and its end.
#[derive(Drop)]
struct Parts {
    /// Those of its resource.
    globals: Vec<GlobalDeclaration>,
    body: Schedule,
}

/// `{task} {program_instance}`
#[tactic(auto, unfolding(crate::specs::Configurations::body))]
fn body<'a>(alloc: Global, ts: &'a [Token]) -> Result<(Schedule, &'a [Token]), ReadError<'a, Token>>
    ensures { Gives
        (λ x. ((x.0.tasks.items, x.0.instances.items), x.1.now))
        result (body.read ts.now) }
{
    let (tasks, rest) = tasks(alloc, ts)?;
    let (instances, rest) = program_instances(alloc, rest)?;
    Ok((Schedule { tasks, instances }, rest))
}

/// `RESOURCE name ON name`
#[tactic(auto, unfolding(crate::specs::Configurations::resource_head))]
fn resource_head<'a>(ts: &'a [Token]) -> Result<&'a [Token], ReadError<'a, Token>>
    ensures { Gives (λ rest. (tt, rest.now)) result (resource_head.read ts.now) }
{
    let rest = spaced_word(ts, Keyword::Resource)?;
    let (_, rest) = spaced_name(rest)?;
    let rest = spaced_word(rest, Keyword::On)?;
    let (_, rest) = spaced_name(rest)?;
    Ok(rest)
}

/// `resource_head {var_global} body END_RESOURCE`
#[tactic(auto, unfolding(crate::specs::Configurations::resource))]
fn resource<'a>(
    alloc: Global,
    ts: &'a [Token],
) -> Result<(Parts, &'a [Token]), ReadError<'a, Token>>
    ensures { Gives
        (λ x. (
          configured_of x.0.globals.items x.0.body.tasks.items x.0.body.instances.items,
          x.1.now,
        ))
        result (resource.read ts.now) }
{
    let rest = resource_head(ts)?;
    let (globals, rest) = global_blocks(alloc, rest)?;
    let (body, rest) = body(alloc, rest)?;
    let rest = spaced_word(rest, Keyword::EndResource)?;
    Ok((Parts { globals, body }, rest))
}

#[tactic(auto, unfolding(crate::specs::Configurations::resource, crate::specs::Configurations::resource_head))]
fn begins_resource(ts: &[Token]) -> bool
    ensures { result ≡ begins resource ts.now }
{
    begins_word(ts, Keyword::Resource)
}

/// `resource END_CONFIGURATION` or `body END_CONFIGURATION`
#[tactic(auto, unfolding(crate::specs::Configurations::contents, crate::specs::Configurations::end))]
fn contents<'a>(
    alloc: Global,
    ts: &'a [Token],
) -> Result<(Parts, &'a [Token]), ReadError<'a, Token>>
    ensures { Gives
        (λ x. (
          configured_of x.0.globals.items x.0.body.tasks.items x.0.body.instances.items,
          x.1.now,
        ))
        result (contents.read ts.now) }
{
    if begins_resource(ts) {
        let (contents, rest) = resource(alloc, ts)?;
        let rest = spaced_word(rest, Keyword::EndConfiguration)?;
        Ok((contents, rest))
    } else {
        let (body, rest) = body(alloc, ts)?;
        let rest = spaced_word(rest, Keyword::EndConfiguration)?;
        let globals = Vec::new(alloc);
        Ok((Parts { globals, body }, rest))
    }
}

/// `CONFIGURATION name {var_global} contents`
#[tactic(auto, unfolding(crate::specs::Configurations::configuration))]
fn configuration<'a>(
    alloc: Global,
    ts: &'a [Token],
) -> Result<(Configuration, &'a [Token]), ReadError<'a, Token>>
    ensures { Gives (λ x. (x.0, x.1.now)) result (configuration.read ts.now) }
{
    let rest = spaced_word(ts, Keyword::Configuration)?;
    let (_, rest) = spaced_name(rest)?;
    let (globals, rest) = global_blocks(alloc, rest)?;
    let (contents, rest) = contents(alloc, rest)?;
    let mut globals = globals;
    let mut inner = contents.globals;
    globals.append(&mut inner)?;
    let configuration = Configuration::new(globals, contents.body.tasks, contents.body.instances);
    Ok((configuration, rest))
}

/// `[configuration]`
#[tactic(auto, unfolding(crate::specs::Configurations::configuration))]
pub(crate) fn optional_configuration<'a>(
    alloc: Global,
    ts: &'a [Token],
) -> Result<(Option<Configuration>, &'a [Token]), ReadError<'a, Token>>
    ensures { Gives (λ x. (x.0, x.1.now)) result ((opt configuration).read ts.now) }
{
    if begins_word(ts, Keyword::Configuration) {
        let (configuration, rest) = configuration(alloc, ts)?;
        Ok((Some(configuration), rest))
    } else {
        Ok((None, ts))
    }
}
