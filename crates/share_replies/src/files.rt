//! The replies of shares, from files.
ghost use Rattle.std.specs.Prelude.{◌≡◌, ℕ, ◌<◌, ◌≤◌, All, IfOk, Err, [], ◌∷◌, length, map, string_bytes};
ghost use Rattle.std.specs.Result.{result_err};
ghost use Rattle.cube_view.specs.declared.schema.Schema.{Schema};
ghost use Rattle.outer_io.specs.Lines.{input_limit};
ghost use Rattle.outer_io.specs.Told.{Told};
ghost use Rattle.reply_sums.specs.Sums.{AsksShallow};
ghost use Rattle.run_files.specs.Outside.{file_of, of_place};
ghost use Rattle.run_files.specs.declared.stop.Stop.{Stop};
ghost use Rattle.share_replies.specs.Causes.{ReadsFiles, ReadsReplies, stop_in_file};
ghost use Rattle.share_replies.specs.Refusals.{DecidesFile, DecidesFiles, totals_of};
ghost use Rattle.share_replies.specs.Sums.{AddsFile, AddsFiles, IsInnocentFile, IsInnocentShares, IsInnocentText};
ghost use Rattle.share_replies.specs.declared.fault.WrongReply.{WrongReply};

use crate::fault::{FileFault, SharesFault, TextFault};
use crate::summed::Summed;
use crate::text::add_text;
use outer_io::Place;
use query_syntax::Parsed;
use run_files::{Stop, read_file};
use std::alloc::Global;
use texts::List;

/// The most bytes of a script, and of the replies of a share.
const LONGEST_TEXT: usize = 1 << 30;

/// The bytes of the named file. More than 2^30 bytes are refused.
pub(crate) fn read_text<P: Place>(
    alloc: Global,
    name: &str,
    place: &mut P,
) -> Result<List<u8>, Stop>
    ensures whole { IfOk result (λ bytes. Told (file_of (P.files place.old) name.now) (λ all. bytes ≡ all)) }
    ensures short { IfOk result (λ bytes. length bytes ≤ input_limit) }
    ensures files { P.files place.new ≡ P.files place.old }
    ensures stage { ReadsFiles (of_place P.Place) place.old place.new (name.now ∷ []) (result_err result) }
{
    let bytes = read_file(alloc, name, LONGEST_TEXT, place)?;
    if bytes.len() > LONGEST_TEXT {
        return Err(Stop::FeedRefused);
    }
    Ok(bytes)
}

fn fault_of_text(fault: TextFault) -> FileFault
    ensures innocent { IsInnocentText fault → IsInnocentFile result }
    ensures at { (line : ℕ) (w : WrongReply) → result ≡ FileFault.Wrong line w → fault ≡ TextFault.At line w }
    ensures memory { (stop : Stop) → result ≡ FileFault.Stopped stop → stop ≡ Stop.NoMemory }
{
    match fault {
        TextFault::NoMemory => FileFault::Stopped(Stop::NoMemory),
        TextFault::At(line, why) => FileFault::Wrong(line, why),
    }
}

fn fault_of_share(fault: FileFault, share: usize) -> SharesFault
    ensures innocent { IsInnocentFile fault → IsInnocentShares result }
    ensures at { (k line : ℕ) (w : WrongReply) → result ≡ SharesFault.Wrong k line w → (k ≡ share) × (fault ≡ FileFault.Wrong line w) }
    ensures stopped { (stop : Stop) → result ≡ SharesFault.Stopped stop → fault ≡ FileFault.Stopped stop }
{
    match fault {
        FileFault::Stopped(stop) => SharesFault::Stopped(stop),
        FileFault::Wrong(line, why) => SharesFault::Wrong(share, line, why),
    }
}

/// The sums with the replies of a share, from the named file.
fn add_file<P: Place>(
    alloc: Global,
    asked: &[Parsed],
    sums: &[Option<Summed>],
    name: &str,
    place: &mut P,
) -> Result<List<Option<Summed>>, FileFault>
    requires size { length sums.now ≡ length asked.now }
    requires shallow { All AsksShallow asked.now }
    ensures law { (schema : Schema) → AddsFile schema asked.now sums.now (file_of (P.files place.old) name.now) result }
    ensures decides { DecidesFile (file_of (P.files place.old) name.now) asked.now sums.now result }
    ensures size { IfOk result (λ next. length next ≡ length asked.now) }
    ensures stage { ReadsFiles (of_place P.Place) place.old place.new (name.now ∷ []) (stop_in_file result) }
    ensures files { P.files place.new ≡ P.files place.old }
{
    let bytes = match read_text(alloc, name, place) {
        Ok(bytes) => bytes,
        Err(stop) => return Err(FileFault::Stopped(stop)),
    };
    match add_text(alloc, asked, sums, bytes.as_slice()) {
        Ok(next) => Ok(next),
        Err(fault) => Err(fault_of_text(fault)),
    }
}

/// The sums with the replies of all shares, from the named files, one after another.
pub(crate) fn add_files<P: Place>(
    alloc: Global,
    asked: &[Parsed],
    first: List<Option<Summed>>,
    names: &[String],
    place: &mut P,
) -> Result<List<Option<Summed>>, SharesFault>
    requires size { length first ≡ length asked.now }
    requires shallow { All AsksShallow asked.now }
    ensures law { (schema : Schema) → AddsFiles schema asked.now first (P.files place.old) (map string_bytes names.now) result }
    ensures share { (k line : ℕ) (why : WrongReply) → result ≡ Err (SharesFault.Wrong k line why) → k < length names.now }
    ensures decides { DecidesFiles (P.files place.old) asked.now (totals_of first) (map string_bytes names.now) result }
    ensures stage { ReadsReplies (of_place P.Place) place.old place.new [] (map string_bytes names.now) result }
    ensures files { P.files place.new ≡ P.files place.old }
{
    let mut sums = first;
    for i in 0..names.len() {
        match add_file(alloc, asked, sums.as_slice(), names[i].as_str(), place) {
            Ok(next) => sums = next,
            Err(fault) => return Err(fault_of_share(fault, i)),
        }
    }
    Ok(sums)
}
