ghost use Rattle.std.specs.Prelude.{◌≡◌};
ghost use Rattle.ray_chains.specs.Overriding.{chains_barrier, chains_led_on};
ghost use Rattle.ray_chains.specs.Overriding.{chains_on_device, no_chains};
ghost use Rattle.ray_chains.specs.Passing.{ChainsBegin, ChainsPassBarrier};
ghost use Rattle.ray_chains.specs.Passing.{ChainsPassBegin, ChainsPassWait};

use crate::masks::MemoryBarrier;
use crate::table::Table;

/// The dependency chains that begin at each stage of a queue and lead to its nodes, by what acts on
/// everything: the fronts of what is done at that stage.
#[derive(Clone, Copy, Debug, PartialEq, Eq)]
pub struct Chains {
    /// From the stage of transfers.
    pub transfer: Table,
    /// From the stage of builds.
    pub build: Table,
    /// From the stage of copies of structures.
    pub structure_copy: Table,
    /// From the stage of traces.
    pub compute: Table,
    /// From the host.
    pub host: Table,
    /// The number of the last command that led any of them on, 0 where none did.
    pub last: u32,
}

impl Chains {
    /// None leads anywhere.
    pub fn none() -> Chains
        ensures value { result ≡ no_chains }
        ensures first { ChainsBegin result }
    {
        Chains {
            transfer: Table::none(),
            build: Table::none(),
            structure_copy: Table::none(),
            compute: Table::none(),
            host: Table::none(),
            last: 0,
        }
    }

    /// The same after a barrier of the queue, command number `n`. One that is limited to buffers
    /// leads on no chain.
    pub fn barrier(self, limited: bool, n: u32, barrier: &MemoryBarrier) -> Chains
        ensures next { ChainsPassBarrier limited n barrier.now self result }
    {
        self.led_on(limited, n, barrier)
    }

    // The same after a barrier, as a value.
    fn led_on(self, limited: bool, n: u32, barrier: &MemoryBarrier) -> Chains
        ensures { result ≡ chains_led_on limited n barrier.now self }
    {
        if limited {
            self
        } else {
            self.handed(n, barrier)
        }
    }

    // The same after a barrier on everything, as a value.
    fn handed(self, n: u32, barrier: &MemoryBarrier) -> Chains
        ensures { result ≡ chains_barrier n barrier.now self }
    {
        let stages = barrier.src_stages;
        Chains {
            transfer: self.transfer.barrier(stages.transfer, n, barrier),
            build: self.build.barrier(stages.build, n, barrier),
            structure_copy: self
                .structure_copy
                .barrier(stages.structure_copy, n, barrier),
            compute: self.compute.barrier(stages.compute, n, barrier),
            host: self.host.barrier(stages.host, n, barrier),
            last: n,
        }
    }

    /// The same after a `wait` of the host, command number `n`.
    pub fn wait(self, n: u32) -> Chains
        ensures next { ChainsPassWait n self result }
    {
        self.on_device(n, n)
    }

    /// The same after the begin of a submission, command number `n`. `number` is the greatest of
    /// the fronts at the signals that meet its waits, one for all stages of the queue.
    pub fn begin(self, n: u32, number: u32) -> Chains
        ensures next { ChainsPassBegin n number self result }
    {
        self.on_device(n, number)
    }

    // The same once what was done below a number has reached all that the device does.
    fn on_device(self, n: u32, number: u32) -> Chains
        ensures { result ≡ chains_on_device n number self }
    {
        Chains {
            transfer: self.transfer.on_device(number),
            build: self.build.on_device(number),
            structure_copy: self.structure_copy.on_device(number),
            compute: self.compute.on_device(number),
            host: self.host.on_device(number),
            last: n,
        }
    }
}
