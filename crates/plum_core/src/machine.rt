//! The machine at work: each event is one step of it.

ghost use Rattle.std.specs.Prelude.{◌≡◌, ◌<◌, ◌≤◌, length, vec_len, OnOk, OnErr, IfOk};

use crate::area::read_area;
use crate::event::{Event, Reply};
use crate::network::Network;
use crate::station::Taken;
use plum_base::{AreaNo, Entry, LaneNo, NoMemory, Offered, Packet, Setup, Sites, Took};
use plum_engine::one_value;
use std::alloc::Global;
use std::collections::VecDeque;

/// What the steps change.
#[derive(Drop)]
pub struct Machine {
    network: Network,
    /// The entry that waits in each lane, if one does.
    waiting: Vec<Option<Entry>>,
    queue: VecDeque<Entry>,
    gathered: Vec<Entry>,
    /// How many gathered entries are appended, and how many of these are published.
    appended: usize,
    published: usize,
    /// How many entries the session of each area has seen.
    seen: Vec<u64>,
    pub ghost lanes: { vec_len waiting ≡ network.lanes },
    pub ghost bounds: { (published ≤ appended) × (appended ≤ vec_len gathered) },
}

impl Machine {
    ghost use Rattle.plum_base.specs.declared.setup.Setup.{Setup};
    ghost use Rattle.plum_base.specs.Sites.{SitesView, areas_of};
    ghost use Rattle.plum_core.specs.declared.event.Event.TheVariants as events;
    ghost use Rattle.plum_core.specs.Machine.{start, NamesExist};
    ghost use Rattle.plum_core.specs.Following.{IsSized, sizes_of, Follows, TakesStep};
    ghost use Rattle.plum_core.specs.Following.{StaysAsItWas, Replies};

    /// Nothing happened yet.
    pub fn new(alloc: Global, sites: &Sites, setup: &Setup) -> Result<Machine, NoMemory>
        ensures sized { IfOk result (λ machine. IsSized setup.now sites.now machine) }
        ensures follows { IfOk result (λ machine. Follows setup.now machine start) }
    {
        let mut waiting = Vec::new(alloc);
        for _ in 0..setup.lanes {
            waiting.push(None)?;
        }
        let mut seen = Vec::new(alloc);
        for _ in 0..sites.areas() {
            seen.push(0)?;
        }
        Ok(Machine {
            network: Network::new(alloc, setup, sites.stations().len())?,
            waiting,
            queue: VecDeque::new(alloc),
            gathered: Vec::new(alloc),
            appended: 0,
            published: 0,
            seen,
        })
    }

    /// A packet comes to the lane of its station.
    fn take(&mut self, packet: Packet) -> Reply
        requires listed { packet.station.0 < length self.old.network.stations.items }
        ensures sizes { sizes_of self.new ≡ sizes_of self.old }
        ensures follows { (setup : Setup) → TakesStep setup (events.Take packet) self.old self.new }
        ensures reply { (setup : Setup) (sites : SitesView)
            → Replies setup sites (events.Take packet) self.old result }
    {
        // For the contract: a kept packet has one entry.
        one_value();
        let lane = self.network.lane_of(packet.station).0 as usize;
        if self.waiting[lane].is_some() {
            return Reply::Held;
        }
        match self.network.take(packet) {
            Taken::Kept(entry) => {
                self.waiting[lane] = Some(entry);
                Reply::Took(Took::Ready)
            }
            Taken::Repeat { last } => Reply::Took(Took::Repeat { last }),
        }
    }

    /// The lane offers its waiting entry to the queue. Where memory is refused, the entry waits on.
    fn offer(&mut self, setup: &Setup, lane: LaneNo) -> Result<Reply, NoMemory>
        requires lane { lane.0 < length self.old.waiting.items }
        ensures sizes { sizes_of self.new ≡ sizes_of self.old }
        ensures follows { OnOk result (TakesStep setup.now (events.Offer lane) self.old self.new) }
        ensures reply { (sites : SitesView)
            → IfOk result (λ reply. Replies setup.now sites (events.Offer lane) self.old reply) }
        ensures err { OnErr result (StaysAsItWas setup.now self.old self.new) }
    {
        let position = lane.0 as usize;
        let Some(entry) = self.waiting[position].take() else {
            return Ok(Reply::Idle);
        };
        if self.queue.len() == setup.queue as usize {
            self.waiting[position] = Some(entry);
            return Ok(Reply::Offered(Offered::Busy));
        }
        if let Err(refused) = self.queue.push_back(entry) {
            self.waiting[position] = Some(refused.value);
            return Err(NoMemory);
        }
        Ok(Reply::Offered(Offered::Sent))
    }

    /// The gatherer takes the first entry of the queue. Where memory is refused, it takes none.
    fn pop(&mut self) -> Result<Reply, NoMemory>
        ensures sizes { sizes_of self.new ≡ sizes_of self.old }
        ensures follows { (setup : Setup)
            → OnOk result (TakesStep setup events.Pop self.old self.new) }
        ensures reply { (setup : Setup) (sites : SitesView)
            → IfOk result (λ reply. Replies setup sites events.Pop self.old reply) }
        ensures err { (setup : Setup) → OnErr result (StaysAsItWas setup self.old self.new) }
    {
        self.gathered.reserve(1)?;
        let Some(entry) = self.queue.pop_front() else {
            return Ok(Reply::Empty);
        };
        let key = entry.key;
        self.gathered.push_reserved(entry);
        Ok(Reply::Popped(key))
    }

    /// The next gathered entry is appended to what is to be published.
    fn append(&mut self) -> Reply
        ensures sizes { sizes_of self.new ≡ sizes_of self.old }
        ensures follows { (setup : Setup) → TakesStep setup events.Append self.old self.new }
        ensures reply { (setup : Setup) (sites : SitesView)
            → Replies setup sites events.Append self.old result }
    {
        if self.appended == self.gathered.len() {
            return Reply::Nothing;
        }
        self.appended += 1;
        Reply::Appended
    }

    /// All that was appended is published.
    fn publish(&mut self) -> Reply
        ensures sizes { sizes_of self.new ≡ sizes_of self.old }
        ensures follows { (setup : Setup) → TakesStep setup events.Publish self.old self.new }
        ensures reply { (setup : Setup) (sites : SitesView)
            → Replies setup sites events.Publish self.old result }
    {
        self.published = self.appended;
        Reply::Published(self.published as u64)
    }

    /// The session of the area reads the published board. Where memory is refused, it has seen no
    /// more than before.
    fn read(&mut self, alloc: Global, sites: &Sites, area: AreaNo) -> Result<Reply, NoMemory>
        requires area { area.0 < length self.old.seen.items }
        requires areas { length self.old.seen.items ≡ length (areas_of sites.now.targets) }
        ensures sizes { sizes_of self.new ≡ sizes_of self.old }
        ensures follows { (setup : Setup)
            → OnOk result (TakesStep setup (events.Read area) self.old self.new) }
        ensures reply { (setup : Setup)
            → IfOk result (λ reply. Replies setup sites.now (events.Read area) self.old reply) }
        ensures err { (setup : Setup) → OnErr result (StaysAsItWas setup self.old self.new) }
    {
        let name = sites.area_name(area);
        let front = &self.gathered[..self.published];
        let reading = read_area(alloc, sites, &name, front)?;
        self.seen[area.0 as usize] = self.published as u64;
        Ok(Reply::Read(reading))
    }

    /// The session of the area is told that so many entries are published.
    fn learn(&mut self, area: AreaNo, count: u64) -> Reply
        requires area { area.0 < length self.old.seen.items }
        ensures sizes { sizes_of self.new ≡ sizes_of self.old }
        ensures follows { (setup : Setup)
            → TakesStep setup (events.Learn area count) self.old self.new }
        ensures reply { (setup : Setup) (sites : SitesView)
            → Replies setup sites (events.Learn area count) self.old result }
    {
        if count > self.published as u64 {
            return Reply::Nothing;
        }
        let position = area.0 as usize;
        let seen = count.max(self.seen[position]);
        self.seen[position] = seen;
        Reply::Learned(seen)
    }

    /// One step, and the reply to its event. A step that is refused memory leaves the machine as it
    /// was.
    pub fn step(
        &mut self,
        alloc: Global,
        sites: &Sites,
        setup: &Setup,
        event: Event,
    ) -> Result<Reply, NoMemory>
        requires exist { NamesExist setup.now sites.now event }
        requires sized { IsSized setup.now sites.now self.old }
        ensures sized { IsSized setup.now sites.now self.new }
        ensures follows { OnOk result (TakesStep setup.now event self.old self.new) }
        ensures reply { IfOk result (λ reply. Replies setup.now sites.now event self.old reply) }
        ensures err { OnErr result (StaysAsItWas setup.now self.old self.new) }
    {
        match event {
            Event::Take(packet) => Ok(self.take(packet)),
            Event::Offer(lane) => self.offer(setup, lane),
            Event::Pop => self.pop(),
            Event::Append => Ok(self.append()),
            Event::Publish => Ok(self.publish()),
            Event::Read(area) => self.read(alloc, sites, area),
            Event::Learn(area, count) => Ok(self.learn(area, count)),
        }
    }
}
