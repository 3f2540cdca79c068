//! The top call.
ghost use Rattle.std.specs.Prelude.{◌≡◌, ◌↔◌, IfSome, map, string_bytes};
ghost use Rattle.program_forms.specs.Forms.{HasFewRows, form_of};
ghost use Rattle.program_forms.specs.Seen.{form_seen};
ghost use Rattle.run_files.specs.Outside.{of_place, of_sink};
ghost use Rattle.top_call.specs.Forms.{FormEnds};
ghost use Rattle.top_call.specs.Outside.{HasCauses};

use crate::demo::run_demo;
use crate::status::Status;
use big_run::run_big;
use image_run::{LoadNames, load_files};
use outer_io::{Place, Sink};
use plan_run::run_plan;
use program_forms::{Form, form_of_words};
use recount::{RecountNames, recount_files};
use save_run::save_files;
use std::sync::Wait;
use std::thread::Threads;

/// Runs the form over a place and a sink, and says how that ended.
fn run_form<R: AllocGlobal + Threads + Wait + Sync, P: Place, O: Sink>(
    rt: &R,
    form: Form<'_>,
    place: &mut P,
    out: &mut O,
) -> Status
    requires { HasFewRows (form_seen form) }
    ensures { FormEnds (of_place P.Place) (of_sink O.Sink) place.old place.new out.old out.new result (form_seen form.entry) }
{
    let alloc = rt.alloc();
    match form {
        Form::Demo { feed, script } => Status::of_end(run_demo(alloc, feed, script, place, out)),
        Form::Run { plan } => Status::of_end(run_plan(rt, alloc, plan, place, out)),
        Form::Big { rows } => Status::of_end(run_big(rt, alloc, rows, out)),
        Form::Recount {
            plan,
            journal,
            script,
            replies,
        } => {
            let names = RecountNames {
                plan,
                journal,
                script,
                replies,
            };
            Status::of_audit(recount_files(alloc, &names, place, out))
        }
        Form::Save { plan, image } => Status::of_image(save_files(alloc, plan, image, place, out)),
        Form::Load {
            plan,
            image,
            script,
        } => {
            let names = LoadNames {
                plan,
                image,
                script,
            };
            Status::of_image(load_files(alloc, &names, place, out))
        }
    }
}

/// Runs what the words say over a place and a sink, and says how it ended.
///
/// `demo FEED SCRIPT` loads the feed, and then each line of the script has one reply on `out`. `run PLAN` loads the
/// plan's feeds by threads while its scripts are answered, writes the replies and the journal to files, and a report to
/// `out`. `big N` runs two generated feeds of N rows and puts a summary on `out`. `recount PLAN JOURNAL SCRIPT REPLIES`
/// checks one session's transcript against the journal by plain filters, and puts one line on `out`. `save PLAN IMAGE`
/// writes the image of one cube of the plan's feeds to a file, and says so on `out`; `load PLAN IMAGE SCRIPT` answers a
/// script over the cube of an image, or names on `out` why the image is refused.
pub fn nanocube<R: AllocGlobal + Threads + Wait + Sync, P: Place, O: Sink>(
    rt: &R,
    words: &[String],
    place: &mut P,
    out: &mut O,
) -> Status
    // Which words are a form of the program.
    ensures usage { (result ≡ Status.Usage) ↔ (form_of (map string_bytes words.now) ≡ None) }

    // For others nothing is read or written.
    ensures untouched { result ≡ Status.Usage → (place.new ≡ place.old) × (out.new ≡ out.old) }

    // How each form ends.
    ensures ends { IfSome (form_of (map string_bytes words.now)) (FormEnds (of_place P.Place) (of_sink O.Sink) place.old place.new out.old out.new result) }

    // The causes of faults, whatever the form.
    ensures causes { HasCauses (of_place P.Place) (of_sink O.Sink) place.old place.new out.old out.new result }
{
    match form_of_words(words) {
        Some(form) => run_form(rt, form, place, out),
        None => Status::Usage,
    }
}
