//! The program `provision`. It runs over the image on standard input, and writes messages and the new image to standard
//! output. With `--root=FOLDER` it runs on this folder, and writes the messages alone.
#![tactic(auto)]

ghost use Rattle.std.specs.Prelude.{◌≡◌, ◌≢◌, ◌⊎◌, ◌/◌, ◌^◌, ◌-◌, ℕ, min, [], true, Some, None, IfOk, OnErr, is_some, drop, map, string_bytes};
ghost use Rattle.std.specs.Time.{system_time_nanos};
ghost use Rattle.std.specs.Vec.Iter.{into_iter_items};
ghost use Rattle.std.specs.IoError.{error_kind};
ghost use Rattle.std.specs.Process.{exit_status};
ghost use Rattle.pv_io.specs.Faults.{HasRisen};
ghost use Rattle.pv_words.specs.Invocation.{parse_args};
ghost use Rattle.pv_words.specs.Rooted.{rooted_of};
ghost use Rattle.pv_words.specs.declared.invocation.Invocation.TheVariants.{Generate};
ghost use Rattle.provision.specs.Ended.{IsStatusOf};

use provision_run::{provision_all, status};
use pv_folder::{Host, RealHost};
use pv_io::{Sink, Source, StdSink, StdSource};
use std::alloc::{AllocError, Global};
use std::env::{self, Args};
use std::io::{self, ErrorKind};
use std::process::ExitCode;
use std::time::SystemTime;

/// Converts what the clock read into microseconds since 1970-01-01 UTC, at most 2^64 - 1.
///
/// The answer is 0 for an earlier time, and if nothing was read.
fn micros_of(read: io::Result<SystemTime>) -> u64
    ensures read { IfOk read (λ time. result ≡ min (system_time_nanos time / 1000) (2 ^ 64 - 1)) }
    ensures unread { OnErr read (result ≡ 0) }
{
    let Ok(time) = read else {
        return 0;
    };
    match time.duration_since(SystemTime::UNIX_EPOCH) {
        Ok(since) => u64::try_from(since.as_micros()).unwrap_or(u64::MAX),
        Err(_earlier) => 0,
    }
}

/// Returns all arguments that the machine gave, in their order. The only error is `AllocError`.
fn all_of(alloc: Global, given: Args) -> Result<Vec<String>, AllocError>
    ensures { IfOk result (λ arguments. arguments.items ≡ into_iter_items given) }
{
    let mut arguments = Vec::new(alloc);
    for argument in given {
        arguments.push(argument)?;
    }
    Ok(arguments)
}

/// Returns all arguments after the first, which is the name of the program.
fn words_of(arguments: &[String]) -> &[String]
    ensures { result.now ≡ drop 1 arguments.now }
{
    match arguments {
        [] => &[],
        [_name, words @ ..] => words,
    }
}

/// Runs the program with its arguments, and returns the exit status. All arguments after the first are its words.
///
/// `clock_micros` is in microseconds since 1970-01-01 UTC.
fn run<S: Source, K: Sink, H: Host>(
    alloc: Global,
    arguments: &[String],
    clock_micros: u64,
    source: &mut S,
    sink: &mut K,
    host: &mut H,
) -> ExitCode
    ensures status { IsStatusOf (map string_bytes (drop 1 arguments.now)) clock_micros (S.left source.old)
        (K.written sink.old) (K.written sink.new)
        (record { content = H.content host.old; changes = H.changes host.old; faults = H.faults host.old })
        (record { content = H.content host.new; changes = H.changes host.new; faults = H.faults host.new })
        (HasRisen (S.faults source.old) (S.faults source.new)) (HasRisen (K.faults sink.old) (K.faults sink.new))
        (HasRisen (H.faults host.old) (H.faults host.new)) (exit_status result) }
    // The source is not read for words without a meaning, for those that name a folder, and for a generated tree.
    ensures unread { parse_args (map string_bytes (drop 1 arguments.now)) ≡ None → source.new ≡ source.old }
    ensures folder_alone { is_some (rooted_of (map string_bytes (drop 1 arguments.now))) ≡ true → source.new ≡ source.old }
    ensures generated { (seed count : ℕ) → parse_args (map string_bytes (drop 1 arguments.now)) ≡ Some (Generate seed count) → source.new ≡ source.old }
    ensures host_unused { rooted_of (map string_bytes (drop 1 arguments.now)) ≡ None → host.new ≡ host.old }
{
    let outcome = provision_all(alloc, words_of(arguments), clock_micros, source, sink, host);
    ExitCode::from(status(&outcome))
}

/// Returns the exit status if the arguments could not be read. It is 71 if memory ran out. Otherwise an argument is not
/// UTF-8 text, and the answer is that for words without a meaning.
fn end_without_words<S: Source, K: Sink, H: Host>(
    alloc: Global,
    error: &io::Error,
    source: &mut S,
    sink: &mut K,
    host: &mut H,
) -> ExitCode
    ensures memory { error_kind error.now ≡ ErrorKind.OutOfMemory → exit_status result ≡ 71 }
    ensures usage { error_kind error.now ≢ ErrorKind.OutOfMemory → IsStatusOf [] 0 (S.left source.old)
        (K.written sink.old) (K.written sink.new)
        (record { content = H.content host.old; changes = H.changes host.old; faults = H.faults host.old })
        (record { content = H.content host.new; changes = H.changes host.new; faults = H.faults host.new })
        (HasRisen (S.faults source.old) (S.faults source.new)) (HasRisen (K.faults sink.old) (K.faults sink.new))
        (HasRisen (H.faults host.old) (H.faults host.new)) (exit_status result) }
    ensures host_unused { host.new ≡ host.old }
    ensures unread { source.new ≡ source.old }
{
    if error.kind() == ErrorKind::OutOfMemory {
        return ExitCode::from(71);
    }
    run(alloc, &[], 0, source, sink, host)
}

fn main(rt: HostRuntime) -> ExitCode {
    let alloc = rt.alloc();
    let mut source = StdSource::new(rt.stdin());
    let mut sink = StdSink::new(rt.stdout());
    let mut host = RealHost::new(rt);
    let given = match env::args(&rt) {
        Ok(given) => given,
        Err(error) => return end_without_words(alloc, &error, &mut source, &mut sink, &mut host),
    };
    let Ok(arguments) = all_of(alloc, given) else {
        return ExitCode::from(71);
    };
    let clock_micros = micros_of(SystemTime::now(&rt));
    run(
        alloc,
        &arguments,
        clock_micros,
        &mut source,
        &mut sink,
        &mut host,
    )
}
