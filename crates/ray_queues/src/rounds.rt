ghost use Rattle.std.specs.Prelude.{◌≡◌, ◌<◌, ◌≤◌, ◌+◌, ◌^◌, ℕ, IfOk, Some, length};
ghost use Rattle.ray_rules.specs.Kinds.{is_by_host, kind_of};
ghost use Rattle.ray_rules.specs.Order.{is_wait};
ghost use Rattle.ray_queues.specs.Rounds.{AreRounds, RoundsRise, after_round, behind_wait};
ghost use Rattle.ray_queues.specs.Rounds.{hosts_from, round_of};
ghost use Rattle.ray_queues.specs.Rows.{IsQueueOrderOf, row_at};

use crate::limits::Limits;
use crate::order::{Row, wave_of};
use crate::per_queue::greater;
use crate::wave_kind::WaveKind;
use ray_cmd::{Command, Recording};
use ray_rules::{Kind, kind_of};
use ray_submits::QueueRecording;
use std::alloc::{AllocError as NoMemory, Global};

/// Which rounds come next where a command stands.
#[derive(Clone, Copy)]
pub(crate) struct Ahead {
    // That of the host's next command.
    pub(crate) host: u32,
    // That of a command of the device which nothing but the host is ahead of.
    pub(crate) device: u32,
    // One that is above all so far.
    pub(crate) top: u32,
}

impl Ahead {
    // Before the first command, with so many of the host's up to its first `wait`.
    fn first(hosts: u32) -> Ahead
        ensures host { result.host ≡ 0 }
        ensures device { result.device ≡ hosts }
        ensures top { result.top ≡ 0 }
    {
        Ahead {
            host: 0,
            device: hosts,
            top: 0,
        }
    }

    // The round of a command of a kind, where what is ordered before it leaves it this one at the
    // least.
    fn round_of(self, kind: WaveKind, number: u32) -> u32
        ensures { result ≡ round_of self kind number }
    {
        match kind {
            WaveKind::Host => self.host,
            _ => greater(self.device, number),
        }
    }

    // Those behind a command of a kind that has a round.
    fn after(self, kind: WaveKind, round: u32) -> Ahead
        requires host { self.host + 1 < 2 ^ 32 }
        requires round { round + 1 < 2 ^ 32 }
        ensures { result ≡ after_round self kind round }
    {
        let top = greater(self.top, round + 1);
        match kind {
            WaveKind::Host => Ahead {
                host: self.host + 1,
                top,
                ..self
            },
            _ => Ahead { top, ..self },
        }
    }

    // Those behind a `wait`, with so many of the host's commands up to the next.
    fn behind(self, hosts: u32) -> Ahead
        requires { self.top + hosts < 2 ^ 32 }
        ensures { result ≡ behind_wait self hosts }
    {
        Ahead {
            host: self.top,
            device: self.top + hosts,
            ..self
        }
    }
}

// The rounds of the commands of a recording below `until`, of which the order over queues says
// this.
pub(crate) fn rounds_of(
    alloc: Global,
    rec: &QueueRecording,
    rows: &[Row],
    until: u32,
) -> Result<Vec<u32>, NoMemory>
    requires order { IsQueueOrderOf rec.now rows.now }
    requires rows { until ≤ length rows.now }
    requires until { until ≤ length rec.now.commands }
    ensures are { IfOk result (λ rounds. AreRounds rec.now until rounds.items) }
    ensures rise { IfOk result (λ rounds. RoundsRise rec.now until rounds.items) }
{
    let commands = rec.recording();
    let mut ahead = Ahead::first(hosts_from(commands, 0, until));
    let mut best = Limits::none();
    let mut bests = Vec::new(alloc);
    let mut rounds = Vec::new(alloc);
    bests.push(best)?;
    for n in 0..until {
        let row = row_of(rows, n);
        let number = wave_of(bests.as_slice(), &row.limits);
        let round = ahead.round_of(row.kind, number);
        rounds.push(round)?;
        best = best.raised(row.kind, round + 1);
        bests.push(best)?;
        ahead = ahead.after(row.kind, round);
        if is_wait(commands.command(n)) {
            ahead = ahead.behind(hosts_from(commands, n + 1, until));
        }
    }
    Ok(rounds)
}

// What the order says of a command.
fn row_of(rows: &[Row], n: u32) -> Row
    requires { n < length rows.now }
    ensures { result ≡ row_at rows.now n }
{
    rows[n as usize]
}

// How many commands from one number to another the host does up to its next `wait`, and with it.
fn hosts_from(rec: &Recording, from: u32, until: u32) -> u32
    requires from { from ≤ until }
    requires until { until ≤ length rec.now }
    ensures { (left : ℕ) → from + left ≡ until → result ≡ hosts_from rec.now left from }
{
    let mut hosts = 0;
    for n in from..until {
        let command = rec.command(n);
        if is_wait(command) {
            return hosts + 1;
        }
        if is_by_host(command) {
            hosts += 1;
        }
    }
    hosts
}

// Whether a command is a `wait`.
fn is_wait(command: &Command) -> bool
    ensures { result ≡ is_wait (Some command.now) }
{
    matches!(command, Command::Wait)
}

// Whether the host does it.
fn is_by_host(command: &Command) -> bool
    ensures { result ≡ is_by_host (kind_of command.now) }
{
    matches!(kind_of(command), Kind::HostCommand)
}
