ghost use Rattle.std.specs.Prelude.{◌≡◌, ℕ, List, [], IfOk, Ok, Some, true};
ghost use Rattle.ray_cmd.specs.declared.command.Command.{Command as ACommand};
ghost use Rattle.ray_cmd.specs.Recordings.{recording_in};
ghost use Rattle.ray_scene.specs.Grid.{IsScene};
ghost use Rattle.vkray.specs.declared.request.Request.{Request as ARequest};
ghost use Rattle.vkray.specs.declared.asked.Asked.TheVariants.{Certify};
ghost use Rattle.vkray.specs.declared.request.Request.TheVariants.{Generate, Input};
ghost use Rattle.vkray.specs.Answer.{answer_of, input_of, runs, Ending};
ghost use Rattle.vkray.specs.Call.{reading, writing, Answers, IsCompleted, IsEnding, IsGoodCall};
ghost use Rattle.vkray.specs.Call.{IsSent, IsValid, TakesPrefix};
ghost use Rattle.vkray.specs.Endings.{Ends, EndsCall};
ghost use Rattle.vkray.specs.Headline.{IsWrittenOfEveryOrder};
ghost use Rattle.vkray.specs.Judged.{IsVerifiable};
ghost use Rattle.vkray.specs.Words.{AskInput, Requests};
ghost use Rattle.vkray.specs.Written.{status_of, text_of};

use crate::executing::execute;
use crate::reply::Reply;
use crate::request::{Request, Scene};
use crate::self_run::run_self;
use crate::status::Status;
use crate::stop::Stop;
use ray_exec::Gate;
use ray_io::{Sink, Source, read_all, write_all};
use ray_scene::gen_text;
use std::alloc::{AllocError as NoMemory, Global};
use std::thread::Threads;

/// The greatest number of bytes that an input may have, 2^26.
pub const MOST_BYTES: u32 = 1 << 26;

/// The program. `words` are those after the program's name: `run` and `run --workers N` read a
/// recording from the source, run it and write its text to the sink, and `check` writes `ok` where
/// it breaks no rule V1 to V32; `queues`, also with `--workers N`, and `groups` run what an object
/// of the source says, a recording that is submitted to several queues or whose candidates are
/// decided by hit groups; `certify` writes a certificate for each ray of a recording's traces, and
/// `verify` whether lines are certificates of the rays of an object's commands;
/// `gen SIDE LAYERS RAYS` reads nothing and writes the recording of a made-up scene, and
/// `selfrun SIDE LAYERS RAYS`, also with `--workers N`, runs that recording and writes the counts
/// of what its rays commit; all others are bad. Whatever ends the call before its text, one line
/// says why. The whole text is made before the first write. After a read fault, or for want of
/// memory, the source may have given a prefix of what it had left.
pub fn vkray<R: Threads + Sync, S: Source, K: Sink, G: Gate + Sync>(
    rt: &R,
    alloc: Global,
    words: &[String],
    source: &mut S,
    sink: &mut K,
    gate: &G,
) -> Status
    ensures answer { Answers words.now
        (reading S.left S.faults source.old source.new)
        (writing K.taken K.faults K.zero_writes sink.old sink.new)
        result }

    // A request that runs, and ends well, has written what is told along every order of its job
    // that the barriers permit.
    ensures headline { (request : ARequest) (input : List ℕ) → runs request ≡ true
        → Requests words.now request → result ≡ Status.Done
        → input_of request (S.left source.old) ≡ Some input
        → IsWrittenOfEveryOrder request input
        (writing K.taken K.faults K.zero_writes sink.old sink.new) }

    // What was certified is verified: on the recording's commands and these lines the answer to
    // `verify` is `yes` and their number.
    ensures verified { (input : List ℕ) (rec : List ACommand) → Requests words.now (Input Certify)
        → result ≡ Status.Done → input_of (Input Certify) (S.left source.old) ≡ Some input
        → recording_in input ≡ Ok rec → IsVerifiable rec }

    // A good call with a valid input is answered: the whole text is written.
    ensures complete { (request : ARequest) (input text : List ℕ)
        → IsGoodCall request words.now
        (reading S.left S.faults source.old source.new)
        (writing K.taken K.faults K.zero_writes sink.old sink.new)
        input
        → IsValid request input text
        → IsCompleted (writing K.taken K.faults K.zero_writes sink.old sink.new) text result }

    // Words that ask no input read nothing, and for want of memory nothing is written.
    ensures unread { ¬ AskInput words.now → source.new ≡ source.old }
    ensures unwritten { result ≡ Status.NoMemory → sink.new ≡ sink.old }
{
    match reply(rt, alloc, words, source, gate) {
        Ok(reply) => write_reply(sink, &reply),
        Err(_) => Status::NoMemory,
    }
}

// Writes the text, and gives its status, or that it could not be written.
fn write_reply<K: Sink>(sink: &mut K, reply: &Reply) -> Status
    ensures { IsSent reply.now.status reply.now.text.items
        (writing K.taken K.faults K.zero_writes sink.old sink.new)
        result }
{
    match write_all(sink, reply.text.as_slice()) {
        Ok(()) => reply.status,
        Err(_) => Status::WriteFault,
    }
}

// What is written, and the status once it is.
fn reply<R: Threads + Sync, S: Source, G: Gate + Sync>(
    rt: &R,
    alloc: Global,
    words: &[String],
    source: &mut S,
    gate: &G,
) -> Result<Reply, NoMemory>
    ensures replies { IfOk result (λ reply. (ending : Ending)
        × IsEnding words.now (reading S.left S.faults source.old source.new) ending
        × (reply.status ≡ status_of ending) × (reply.text.items ≡ text_of ending)) }
    ensures prefix { TakesPrefix (reading S.left S.faults source.old source.new) }
    ensures unread { ¬ AskInput words.now → source.new ≡ source.old }
{
    match read_and_run(rt, alloc, words, source, gate) {
        Ok(text) => Ok(Reply {
            status: Status::Done,
            text,
        }),
        Err(stop) => Reply::of_stop(alloc, stop),
    }
}

// Does what the words ask for: a text, or why there is none.
fn read_and_run<R: Threads + Sync, S: Source, G: Gate + Sync>(
    rt: &R,
    alloc: Global,
    words: &[String],
    source: &mut S,
    gate: &G,
) -> Result<Vec<u8>, Stop>
    ensures called { EndsCall words.now
        (reading S.left S.faults source.old source.new) result }
    ensures prefix { TakesPrefix (reading S.left S.faults source.old source.new) }
    ensures unread { ¬ AskInput words.now → source.new ≡ source.old }
{
    match Request::of_words(words) {
        Some(Request::Input(asked)) => match read_all(alloc, source, MOST_BYTES) {
            Ok(bytes) => execute(rt, alloc, asked, bytes, gate),
            Err(fault) => Err(Stop::from(fault)),
        },
        Some(Request::Generate(scene)) => generate(alloc, scene),
        Some(Request::RunSelf(asked)) => run_self(rt, alloc, asked, gate),
        None => Err(Stop::BadWords),
    }
}

// The recording of a scene.
#[tactic(auto, unfolding(crate::specs::Answer::answer_of))]
fn generate(alloc: Global, scene: Scene) -> Result<Vec<u8>, Stop>
    requires { IsScene scene.side scene.layers scene.rays }
    ensures { Ends (answer_of (Generate scene) []) result }
{
    match gen_text(alloc, scene.side, scene.layers, scene.rays) {
        Ok(text) => Ok(text),
        Err(_) => Err(Stop::NoMemory),
    }
}
