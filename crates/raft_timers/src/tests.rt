//! Three groups over a thousand ticks: what is asked for, and when, worked by hand from the
//! settings and the generator's first words.
use super::*;
use raft_values::ServerState;
use std::alloc::{AllocError, Global};
use std::fmt::Write;
use std::test::Fail;

const SETTINGS: TimerSettings = TimerSettings {
    heartbeat_interval: 150,
    election_min: 200,
    election_max: 400,
    request_timeout: 100,
    request_timeout_max: 400,
    snapshot_entries: 3000,
    keep_entries: 1000,
    clean_interval: 300,
};

const EXPECTED: &str = "110 lost 2
151 heartbeat
300 snapshot
301 heartbeat
301 purge 2000
310 lost 2
451 heartbeat
600 snapshot
600 no quorum
601 heartbeat
601 purge 5000
620 lost 2
751 heartbeat
801 lost 2
900 snapshot
901 heartbeat
901 purge 8000
";

// What is known of a group, and who makes it wait.
#[derive(Drop)]
struct Group {
    timers: Timers,
    view: GroupView,
    told: String,
    had_quorum: bool,
}

fn view(role: ServerState) -> GroupView {
    GroupView {
        role,
        renewed: None,
        quorum_heard: None,
        applied: None,
        snapshot: None,
        purged: None,
    }
}

impl Group {
    fn new(alloc: Global, config: TimerConfig, role: ServerState) -> Result<Group, AllocError> {
        Ok(Group {
            timers: Timers::new(alloc, config, 1234567, &[2, 3], 0)?,
            view: view(role),
            told: String::new(alloc),
            had_quorum: true,
        })
    }

    // Does at once what is asked for, and tells it.
    fn tick(&mut self, now: u64, waiting: &[u64]) -> Result<(), AllocError> {
        let wanted = self.timers.tick(now, &self.view, waiting)?;
        if wanted.elect {
            self.view.renewed = Some(now);
            writeln!(&mut self.told, "{now} elect")?;
        }
        if wanted.heartbeat {
            writeln!(&mut self.told, "{now} heartbeat")?;
        }
        for peer in &wanted.lost {
            writeln!(&mut self.told, "{now} lost {peer}")?;
        }
        if wanted.snapshot {
            self.view.snapshot = self.view.applied;
            writeln!(&mut self.told, "{now} snapshot")?;
        }
        if let Some(place) = wanted.purge {
            self.view.purged = Some(place);
            writeln!(&mut self.told, "{now} purge {place}")?;
        }
        if wanted.no_quorum && self.had_quorum {
            writeln!(&mut self.told, "{now} no quorum")?;
        }
        self.had_quorum = !wanted.no_quorum;
        Ok(())
    }
}

#[test]
fn three_groups_over_a_thousand_ticks(rt: HostRuntime) -> Result<(), Fail> {
    let config = TimerConfig::new(SETTINGS)?;
    let mut led = Group::new(rt.alloc(), config, ServerState::Leader)?;
    let mut followed = Group::new(rt.alloc(), config, ServerState::Follower)?;
    let mut learned = Group::new(rt.alloc(), config, ServerState::Learner)?;
    for now in 1..=1000u64 {
        led.view.applied = Some(now.wrapping_mul(10));
        if now <= 400 {
            led.view.quorum_heard = majority_heard(&[Some(now), Some(now), None]);
        }
        let waits = now >= 10 && (now < 500 || now >= 520);
        led.tick(now, if waits { &[2] } else { &[] })?;
        if now == 700 {
            led.timers.answered(2);
        }
        if now <= 300 {
            followed.view.renewed = Some(now);
        }
        followed.tick(now, &[])?;
        learned.tick(now, &[])?;
    }
    assert_eq!(rt; led.told.as_str(), EXPECTED);
    assert_eq!(rt; followed.told.as_str(), "524 elect\n860 elect\n");
    assert_eq!(rt; learned.told.as_str(), "");
    Ok(())
}
