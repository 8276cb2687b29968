//! A node that stands for election.
ghost use Rattle.std.specs.Prelude.{◌≡◌, ◌++◌, Bool, true, false, [], IfOk, OnOk, OnErr, map};
ghost use Rattle.std.specs.List.{list_any};
ghost use Rattle.std.specs.Option.{option_copied};
ghost use Rattle.raft_quorums.specs.Nodes.{has_id};
ghost use Rattle.raft_progress.specs.Parts.{SetsValue};
ghost use Rattle.raft_progress.specs.Values.{are_distinct};
ghost use Rattle.raft_leaders.specs.Candidate.{granting_ids, is_granted_by_quorum, with_granter};

use crate::granters::Granters;
use raft_progress::VecProgress;
use raft_state::{LogId, NodeId, QuorumSet, Vote};
use std::alloc::{AllocError, Global};
use std::fmt::{self, Display};
use std::marker::Model;

/// A node that stands for election: its vote, and who has granted it (openraft; that it keeps the
/// ids of those who are no voters too is own). Contracts see its fields, and the progress as its
/// parts.
#[derive(Drop)]
pub struct Candidate<NID: NodeId, QS: QuorumSet<NID>> {
    starting_time: u64,
    vote: Vote<NID>,
    last_log_id: Option<LogId<NID>>,
    progress: VecProgress<NID, bool, bool, QS>,
    granted_by: Vec<NID>,
}

impl<NID: NodeId, QS: QuorumSet<NID>> Model for Candidate<NID, QS> {
    ghost use Rattle.std.specs.Prelude.{◌≡◌, false};
    ghost use Rattle.std.specs.List.{IsDistinct};
    ghost use Rattle.std.specs.Ordering.{bool_cmp};
    ghost use Rattle.raft_progress.specs.Counted.{IsCounted};
    ghost use Rattle.raft_progress.specs.Parts.{ids_of};
    ghost use Rattle.raft_leaders.specs.Candidate.{CandidateValue};

    ghost Value = { CandidateValue NID QS };

    ghost view = { λ c. record {
      starting_time = c.starting_time;
      vote = c.vote;
      last_log_id = c.last_log_id;
      progress = c.progress;
      granted_by = c.granted_by.items;
    } };

    ghost invariant = { λ c. IsCounted NID.eq bool_cmp (λ b. b) QS.accepts c.progress
        × (c.progress.built_with ≡ false)
        × IsDistinct NID.eq (ids_of c.progress.voters) };
}

// Puts the id behind the others, unless it is among them. Without memory nothing is changed.
fn push_granter<NID: NodeId>(ids: &mut Vec<NID>, id: NID) -> Result<(), AllocError>
    ensures ok { OnOk result (ids.new.items ≡ with_granter NID.eq ids.old.items id) }
    ensures err { OnErr result (ids.new.items ≡ ids.old.items) }
{
    if !ids.contains(&id) {
        ids.push(id)?;
    }
    Ok(())
}

impl<NID: NodeId, QS: QuorumSet<NID> + Drop> Candidate<NID, QS> {
    /// A candidate whose vote nobody has granted yet. It stood at this moment (in ticks). The
    /// learners are distinct and no voters (openraft).
    pub fn new(
        alloc: Global,
        starting_time: u64,
        vote: Vote<NID>,
        last_log_id: Option<LogId<NID>>,
        quorum_set: QS,
        learner_ids: &[NID],
    ) -> Result<Candidate<NID, QS>, AllocError>
        requires distinct { are_distinct NID.eq learner_ids.now ≡ true }
        requires no_voters { list_any (has_id NID.eq (QS.members quorum_set)) learner_ids.now ≡ false }
        ensures starting_time { IfOk result (λ c. c.starting_time ≡ starting_time) }
        ensures vote { IfOk result (λ c. c.vote ≡ vote) }
        ensures last_log_id { IfOk result (λ c. c.last_log_id ≡ last_log_id) }
        ensures quorum_set { IfOk result (λ c. c.progress.quorum_set ≡ quorum_set) }
        ensures voters { IfOk result (λ c. c.progress.voters ≡ map (λ id. (id, false)) (QS.members quorum_set)) }
        ensures learners { IfOk result (λ c. c.progress.learners ≡ map (λ id. (id, false)) learner_ids.now) }
        ensures granted_by { IfOk result (λ c. c.granted_by ≡ []) }
    {
        let progress = VecProgress::new(alloc, quorum_set, learner_ids, false)?;
        Ok(Candidate {
            starting_time,
            vote,
            last_log_id,
            progress,
            granted_by: Vec::new(alloc),
        })
    }

    /// The moment at which the candidate stood, in ticks (openraft).
    pub fn starting_time(&self) -> u64
        ensures { result ≡ self.now.starting_time }
    {
        self.starting_time
    }

    /// The vote that is asked for (openraft).
    pub fn vote_ref(&self) -> &Vote<NID>
        ensures { result.now ≡ self.now.vote }
    {
        &self.vote
    }

    /// The last log id that the candidate's log had as it stood (openraft).
    pub fn last_log_id(&self) -> Option<&LogId<NID>>
        ensures { option_copied result ≡ self.now.last_log_id }
    {
        self.last_log_id.as_ref()
    }

    /// Who has granted the vote: a flag beside each id (openraft).
    pub fn progress(&self) -> &VecProgress<NID, bool, bool, QS>
        ensures { result.now ≡ self.now.progress }
    {
        &self.progress
    }

    /// Notes that this id has granted the vote, and answers whether a quorum has of those who were
    /// the voters as it stood: some voter, and those who have are a quorum (openraft, which stops
    /// at an id that nobody has). Without memory nothing is changed.
    pub fn grant_by(&mut self, target: &NID) -> Result<bool, AllocError>
        ensures sets { OnOk result (SetsValue NID.eq self.old.progress self.new.progress target.now true) }
        ensures notes { OnOk result (self.new.granted_by ≡ with_granter NID.eq self.old.granted_by target.now) }
        ensures rest { self.new ≡ record self.old { progress = self.new.progress; granted_by = self.new.granted_by } }
        ensures granted { IfOk result (λ granted. granted ≡ is_granted_by_quorum NID.eq QS.accepts self.new.progress) }
        ensures err { OnErr result (self.new ≡ self.old) }
    {
        push_granter(&mut self.granted_by, *target)?;
        // What is granted is the same whether somebody has the id or nobody.
        let _ = self.progress.update(target, true);
        Ok(*self.progress.granted())
    }

    /// Whether all who have granted the vote are a quorum of these voters, which may be others than
    /// those as it stood (own): of the membership in force, say, which a purge may change.
    pub fn is_granted_by<VS: QuorumSet<NID>>(&self, voters: &VS) -> bool
        ensures { result ≡ VS.accepts voters.now (has_id NID.eq self.now.granted_by) }
    {
        voters.is_quorum(&self.granted_by)
    }

    /// The ids that have granted the vote, voters first, then learners (openraft).
    pub fn granters(&self) -> Granters<'_, NID>
        ensures { result ≡ granting_ids (self.now.progress.voters ++ self.now.progress.learners) }
    {
        Granters::new(self.progress.iter())
    }
}

impl<NID: NodeId, QS: QuorumSet<NID> + Drop> Display for Candidate<NID, QS> {
    fn fmt<W: fmt::Write>(&self, f: &mut fmt::Formatter<W>) -> fmt::Result {
        let vote = self.vote_ref();
        let time = self.starting_time();
        match self.last_log_id {
            None => write!(f, "{{{vote}@{time}, last_log_id:None ")?,
            Some(last) => write!(f, "{{{vote}@{time}, last_log_id:{last} ")?,
        }
        let progress = self.progress();
        write!(f, "progress:{progress}}}")
    }
}
