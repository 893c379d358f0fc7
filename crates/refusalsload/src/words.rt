//! What the words of the command line ask for.

ghost use Rattle.std.specs.Prelude.{◌≡◌, ◌≢◌, IfSome, None, Some, codes, false, length, option_map};
ghost use Rattle.std.specs.Prelude.{true};
ghost use Rattle.clap.specs.Words.{first_of, found_of, one_of, rows_of};
ghost use Rattle.commandline.specs.Invocations.{expected_words, watched_words};

use clap::ArgMatches;
use commandline::{
    CodeWords, Invocation, LookOptions, Question, Tool, code_words_in, invocation_of,
};
use commandoptions::{LiveOptions, PlayFiles};

/// `limit_taken_for_the_workers`, `the_period_is_taken_for_the_seconds`,
/// `the_record_is_taken_for_the_log`, `a_flag_is_turned`, `it_ends_where_it_is_to_stay`,
/// `the_period_is_taken_for_the_patience`, `a_line_is_silent_for_half_a_second_at_most`: of a
/// building for which none of these is said another option was read, or another default taken.
pub fn building_has_its_defaults<'a>(found: &ArgMatches<'a>) -> Option<LiveOptions<'a>>
    requires workers { one_of (codes "workers") (rows_of (found_of found.now)) ≡ None }
    requires seconds { one_of (codes "for") (rows_of (found_of found.now)) ≡ None }
    requires log { first_of (codes "log") (rows_of (found_of found.now)) ≡ None }
    requires end { one_of (codes "end-on-down") (rows_of (found_of found.now)) ≡ None }
    requires patience { one_of (codes "patience") (rows_of (found_of found.now)) ≡ None }
    ensures workers { IfSome result (λ options. options.size.workers ≡ 2) }
    ensures seconds { IfSome result (λ options. options.seconds ≡ None) }
    ensures log { IfSome result (λ options. options.beside.log ≡ None) }
    ensures end { IfSome result (λ options. options.ends_on_down ≡ false) }
    ensures patience { IfSome result (λ options. options.patience ≡ 1000) }
{
    match invocation_of("live", found) {
        Ok(Invocation::Live { options, .. }) => Some(options),
        _ => None,
    }
}

/// `from_and_to_of_a_picture_are_exchanged`, `the_bus_of_a_picture_is_dropped`: of a picture of bus
/// 3 with no beginning that is said another option was read, or none.
pub fn picture_has_its_bus_and_beginning<'a>(found: &ArgMatches<'a>) -> Option<LookOptions<'a>>
    requires from { one_of (codes "from") (rows_of (found_of found.now)) ≡ None }
    requires bus { one_of (codes "bus") (rows_of (found_of found.now)) ≡ Some (codes "3") }
    ensures from { IfSome result (λ options. options.from ≡ None) }
    ensures bus { IfSome result (λ options. options.bus ≡ Some 3) }
{
    match invocation_of("look", found) {
        Ok(Invocation::Look { options, .. }) => Some(options),
        _ => None,
    }
}

/// `the_old_order_of_look_is_taken_for_the_new`: beside `--bind` the word behind the text was not
/// the scenario.
pub fn scenario_stands_behind_the_text<'a>(found: &ArgMatches<'a>) -> Option<PlayFiles<'a>>
    requires bind { first_of (codes "bind") (rows_of (found_of found.now)) ≢ None }
    requires scenario { first_of (codes "BIND") (rows_of (found_of found.now)) ≡ Some (codes "day") }
    ensures { IfSome result (λ files. files.scenario.now ≡ codes "day") }
{
    match invocation_of("look", found) {
        Ok(Invocation::Look { files, .. }) => Some(files),
        _ => None,
    }
}

/// `bind_of_a_play_is_read_as_its_scenario`: beside `--bind` another file was the binding.
pub fn binding_of_a_play_is_that_of_bind<'a>(found: &ArgMatches<'a>) -> Option<PlayFiles<'a>>
    requires bind { first_of (codes "bind") (rows_of (found_of found.now)) ≡ Some (codes "hall") }
    requires scenario { first_of (codes "BIND") (rows_of (found_of found.now)) ≡ Some (codes "day") }
    ensures binding { IfSome result (λ files. files.binding.now ≡ codes "hall") }
    ensures scenario { IfSome result (λ files. files.scenario.now ≡ codes "day") }
{
    match invocation_of("play", found) {
        Ok(Invocation::Play { files, .. }) => Some(files),
        _ => None,
    }
}

/// `the_kept_values_of_a_play_are_dropped`: of a play with a file of kept values another file was
/// read, or none.
pub fn kept_values_of_a_play_are_named<'a>(found: &ArgMatches<'a>) -> Option<PlayFiles<'a>>
    requires { first_of (codes "keep") (rows_of (found_of found.now)) ≡ Some (codes "kept") }
    ensures { IfSome result (λ files.
        option_map (λ path. path.now) files.keep ≡ Some (codes "kept")) }
{
    match invocation_of("play", found) {
        Ok(Invocation::Play { files, .. }) => Some(files),
        _ => None,
    }
}

/// `what_is_watched_is_dropped`, `the_last_name_is_watched_alone`: of two variables that are to be
/// watched none was, or one.
pub fn both_names_are_watched(found: &ArgMatches<'_>) -> Option<usize>
    requires { length (watched_words (rows_of (found_of found.now))) ≡ 2 }
    ensures { IfSome result (λ names. names ≡ 2) }
{
    match invocation_of("look", found) {
        Ok(Invocation::Look { watches, .. }) => Some(watches.len()),
        _ => None,
    }
}

/// `a_seventeenth_name_is_passed_over`: 17 names were taken.
pub fn seventeenth_name_is_refused(found: &ArgMatches<'_>) -> bool
    requires { length (watched_words (rows_of (found_of found.now))) ≡ 17 }
    ensures { result ≡ true }
{
    invocation_of("look", found).is_err()
}

/// `text_taken_for_the_binding`: where no binding is named the text was taken for it.
pub fn text_is_no_binding(found: &ArgMatches<'_>) -> bool
    requires bind { first_of (codes "bind") (rows_of (found_of found.now)) ≡ None }
    requires word { first_of (codes "BIND") (rows_of (found_of found.now)) ≡ None }
    ensures { result ≡ false }
{
    match invocation_of("notes", found) {
        Ok(Invocation::Tell { files, .. }) => files.binding.is_some(),
        _ => false,
    }
}

/// `the_scenario_beside_a_binding_by_option_is_passed_over`: beside `--bind` a third word was the
/// scenario.
pub fn third_word_is_no_scenario(found: &ArgMatches<'_>) -> bool
    requires bind { first_of (codes "bind") (rows_of (found_of found.now)) ≢ None }
    requires word { first_of (codes "BIND") (rows_of (found_of found.now)) ≡ None }
    ensures { result ≡ false }
{
    match invocation_of("explain", found) {
        Ok(
            Invocation::Tell {
                question: Question::Faults { scenario, .. },
                ..
            },
        ) => scenario.is_some(),
        _ => false,
    }
}

/// `the_text_is_compared_as_its_binding`: a line was compared where no binding is named.
pub fn nothing_is_compared_without_a_binding(found: &ArgMatches<'_>) -> bool
    requires { first_of (codes "BIND") (rows_of (found_of found.now)) ≡ None }
    ensures { result ≡ false }
{
    match invocation_of("probe", found) {
        Ok(Invocation::Tool(Tool::Probe { against, .. })) => against.is_some(),
        _ => false,
    }
}

/// `the_bus_of_a_line_is_dropped`: a line was of bus 0, whatever its bus.
pub fn line_has_its_bus(found: &ArgMatches<'_>) -> Option<u8>
    requires { one_of (codes "bus") (rows_of (found_of found.now)) ≡ Some (codes "3") }
    ensures { IfSome result (λ bus. bus ≡ 3) }
{
    match invocation_of("blink", found) {
        Ok(Invocation::Tool(Tool::Blink { line, .. })) => Some(line.bus),
        _ => None,
    }
}

/// `the_second_frame_is_taken_for_the_first`: the first word for a frame was another one.
pub fn first_frame_is_the_first_word<'a>(found: &ArgMatches<'a>) -> Option<&'a str>
    requires { first_of (codes "HEX") (rows_of (found_of found.now)) ≡ Some (codes "FE80") }
    ensures { IfSome result (λ word. word.now ≡ codes "FE80") }
{
    match invocation_of("frame", found) {
        Ok(Invocation::Frame { words }) => Some(words.first),
        _ => None,
    }
}

/// `the_word_between_text_and_code_file_is_never_a_binding`,
/// `a_word_with_a_slash_names_a_task`: a path between the text and the code file was taken for the
/// name of a task.
pub fn path_before_the_code_file_is_the_binding<'a>(found: &ArgMatches<'a>) -> CodeWords<'a>
    requires bind { first_of (codes "bind") (rows_of (found_of found.now)) ≡ None }
    requires first { first_of (codes "BIND") (rows_of (found_of found.now)) ≡ Some (codes "a/b") }
    requires second { first_of (codes "TASK") (rows_of (found_of found.now)) ≡ Some (codes "c") }
    requires last { first_of (codes "OUT") (rows_of (found_of found.now)) ≡ None }
    ensures binding { IfSome result.files.binding (λ path. path.now ≡ codes "a/b") }
    ensures named { result.files.binding ≢ None }
    ensures task { result.task ≡ None }
{
    code_words_in(found)
}
