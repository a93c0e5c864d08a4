// Makes the calls of a call script, read from standard input, on one device, and writes a line of answer for each to
// standard output. It holds a chunk of input, one line and the answers not yet written, whatever the input's length.
// With --summary it tells on standard error, once all is read and written, what was answered.
#![tactic(auto)]

mod summary;

ghost use Rattle.std.specs.Prelude.{◌≡◌, ◌-◌, ◌++◌, [], length, take, IsOk, OnOk};
ghost use Rattle.script.specs.Command.{Within};

use arrayvec::{ArrayVec, CapacityError};
use blocks::setpoint::Order;
use device::{Device, Fed};
use parameters::Words;
use script::{Answer, BadLine, Command};
use std::env::FillError;
use std::io;
use std::io::{Read, Write};
use std::process::ExitCode;
use std::rt::Env;
use summary::Counts;
use wire::{Discrete, Pair, Refusal};

// What ended a run early.
#[derive(Debug, Drop)]
enum Failed {
    Input(io::Error),
    Output(io::Error),
    Summary(io::Error),
}

// An answer that has no room is not written. None is met: there is room for the longest before each call.
impl From<CapacityError> for Failed {
    fn from(_: CapacityError) -> Failed {
        Failed::Output(io::ErrorKind::WriteZero.into())
    }
}

// ---- calls

// The next three are functions and no `impl From`: both types of each belong to other crates.
fn outcome(answer: Result<(), Refusal>) -> Answer<'static> {
    match answer {
        Ok(()) => Answer::Ok,
        Err(refusal) => Answer::Refused(refusal.number()),
    }
}

fn words(reading: Result<Words, Refusal>) -> Answer<'static> {
    match reading {
        Ok(words) => Answer::Words(words.first, words.second),
        Err(refusal) => Answer::Refused(refusal.number()),
    }
}

fn order<V, F: FnOnce(V) -> script::Order>(order: Order<V>, position: F) -> script::Order
    requires { (value : V) → F.pre position value }
{
    match order {
        Order::Position(value) => position(value),
        Order::Safe => script::Order::Safe,
        Order::Rest => script::Order::Rest,
    }
}

fn image<'a>(device: &Device, room: &'a mut [u8]) -> Answer<'a> {
    room.fill(0xa5);
    match device.image(room) {
        Ok(()) => Answer::Bytes(room),
        refused => outcome(refused),
    }
}

fn part<'a>(room: &'a mut [u8], block: u8) -> Answer<'a> {
    for (byte, n) in room.iter_mut().zip(0..u8::MAX) {
        *byte = n;
    }
    Answer::Bytes(device::part(room, block))
}

// Makes a call, and gives its answer. The room is for the bytes that its line or its answer has.
fn made<'a>(
    device: &mut Device,
    counts: &mut Counts,
    command: Command,
    line: &[u8],
    room: &'a mut [u8; 256],
) -> Answer<'a>
    requires { Within command }
{
    match command {
        Command::Factory => {
            *device = Device::factory();
            Answer::Ok
        }
        Command::Tick {
            fault,
            ain_bits,
            ain_status,
            tot_bits,
            tot_status,
            di_value,
            di_status,
        } => {
            let fed = Fed {
                ain: Pair {
                    bits: ain_bits,
                    status: ain_status,
                },
                tot: Pair {
                    bits: tot_bits,
                    status: tot_status,
                },
                di: Discrete {
                    value: di_value,
                    status: di_status,
                },
            };
            let before = *device;
            let orders = device.tick(fault, fed);
            counts.tick(before, *device, summary::failing(before, fault, fed));
            Answer::Orders(
                order(orders.ao, |x| -> script::Order {
                    script::Order::Position(numbers::floats::bits_of(x))
                }),
                order(orders.dout, |value| -> script::Order {
                    script::Order::PositionD(value)
                }),
            )
        }
        Command::Telegram { input, length } => {
            let bytes = &mut room[..length];
            script::bytes_after(line, 2, bytes);
            outcome(device.telegram(input, bytes))
        }
        Command::Write {
            block,
            parameter,
            first,
            second,
        } => outcome(device.write(block, parameter, Words { first, second })),
        Command::Warm => {
            device.warm_start();
            Answer::Ok
        }
        Command::Read { block, parameter } => words(device.read(block, parameter)),
        Command::Image { length } => image(device, &mut room[..length]),
        Command::Part { block, length } => part(&mut room[..length], block),
        Command::Total => Answer::Total(device.total()),
        Command::Load { length } => {
            let bytes = &mut room[..length];
            script::bytes_after(line, 1, bytes);
            outcome(device.load(bytes))
        }
    }
}

// ---- a run

// A line of more bytes is answered `error`, so one byte more is all that is held of it.
const LINE: usize = 4096;

const HELD: usize = LINE + 1;

const CHUNK: usize = 65536;
// The longest answer has 198 bytes.
const ANSWER: usize = 256;

// The device, the line that has begun, the answers that are not yet written, and the counts.
#[derive(Drop)]
struct Run {
    device: Device,
    line: ArrayVec<u8, HELD>,
    answers: ArrayVec<u8, CHUNK>,
    counts: Counts,
}

impl Run {
    fn new() -> Run {
        Run {
            device: Device::factory(),
            line: ArrayVec::new(),
            answers: ArrayVec::new(),
            counts: Counts::default(),
        }
    }

    // Writes the answers that are held. After a write that failed nothing is written: answers with a hole would look whole.
    fn flush(&mut self, rt: &impl Print) -> Result<(), Failed>
        ensures line { self.new.line ≡ self.old.line }
        ensures answers { OnOk result (self.new.answers.items ≡ []) }
    {
        io::writer(rt)
            .write_all(self.answers.as_slice())
            .map_err(Failed::Output)?;
        self.answers.clear();
        Ok(())
    }

    // Makes the call of the line that is held, which is whole.
    fn call(&mut self, rt: &impl Print) -> Result<(), Failed>
        ensures { self.new.line.items ≡ [] }
    {
        let mut room = [0u8; 256];
        let line = self.line.as_slice();
        let answer = match script::parse(line) {
            Ok(None) => None,
            Ok(Some(command)) => Some(made(
                &mut self.device,
                &mut self.counts,
                command,
                line,
                &mut room,
            )),
            Err(BadLine) => Some(Answer::Error),
        };
        self.counts.line(line, answer);
        self.line.clear();
        if let Some(answer) = answer {
            script::fit_answer(&mut self.answers, answer)?;
        }
        if self.answers.len() > CHUNK - ANSWER {
            self.flush(rt)?;
        }
        Ok(())
    }

    // Adds bytes to the line, as many as it has room for.
    fn hold(&mut self, bytes: &[u8]) -> Result<(), CapacityError>
        ensures fits { IsOk result }
        ensures line { self.new.line.items ≡ self.old.line.items ++ take (4097 - length self.old.line.items) bytes.now }
    {
        let room = self.line.remaining_capacity();
        self.line
            .try_extend_from_slice(&bytes[..bytes.len().min(room)])
    }

    // Makes the calls of a chunk's lines. What follows its last 0x0A is held.
    fn take(&mut self, rt: &impl Print, chunk: &[u8]) -> Result<(), Failed> {
        for piece in chunk.split_inclusive(|byte| *byte == b'\n') {
            match piece.strip_suffix(b"\n") {
                Some(end) => {
                    self.hold(end)?;
                    self.call(rt)?;
                }
                None => self.hold(piece)?,
            }
        }
        Ok(())
    }
}

// Reads to the input's end. The answers are written before more is read: who sends calls may wait for them. A last line
// without 0x0A counts as well, but not what came of a line before a read that failed.
fn replay(rt: &(impl Input + Print)) -> Result<Counts, Failed> {
    let mut input = [0u8; CHUNK];
    let mut run = Run::new();
    // A proved loop has to end, and nothing says that input does: its turns are counted, up to a number that no run uses up.
    for _ in 0..u64::MAX {
        let n = rt.reader().read(&mut input).map_err(Failed::Input)?;
        if n == 0 {
            break;
        }
        run.take(rt, &input[..n])?;
        run.flush(rt)?;
    }
    if !run.line.is_empty() {
        run.call(rt)?;
        run.flush(rt)?;
    }
    Ok(run.counts)
}

// ---- arguments

// Whether an argument is missing; one that is there may be of any length.
fn is_missing(rt: &impl Env, i: usize) -> bool {
    let mut word = [0u8; 1];
    matches!(rt.arg(i, &mut word), Err(FillError::NotPresent))
}

// Whether the summary is asked for; nothing where the arguments are others.
fn asked(rt: &impl Env) -> Option<bool> {
    let mut word = [0u8; 16];
    match rt.arg(1, &mut word) {
        Err(FillError::NotPresent) => Some(false),
        Ok(n) if &word[..n] == b"--summary".as_slice() && is_missing(rt, 2) => Some(true),
        _ => None,
    }
}

fn replay_all(rt: &(impl Input + Print + Eprint), summary: bool) -> Result<(), Failed> {
    let counts = replay(rt)?;
    if summary {
        summary::tell(rt, counts).map_err(Failed::Summary)?;
    }
    Ok(())
}

// Status 1: not all could be read, written and told. Where that cannot be said either, the exit status still tells it.
fn main(rt: HostRuntime) -> ExitCode {
    let Some(summary) = asked(&rt) else {
        let _ = eprintln!(rt;
            "replay: reads a call script on standard input; its one argument is --summary"
        );
        return ExitCode::SUCCESS;
    };
    let _ = match replay_all(&rt, summary) {
        Ok(()) => return ExitCode::SUCCESS,
        Err(Failed::Input(why)) => eprintln!(rt; "standard input: {why}"),
        Err(Failed::Output(why)) => eprintln!(rt; "standard output: {why}"),
        Err(Failed::Summary(_)) => Ok(()),
    };
    ExitCode::FAILURE
}
