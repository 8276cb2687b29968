//! Which append files may go.

ghost use Rattle.std.specs.Prelude.{ℕ, List};
ghost use Rattle.raft_log_covers.specs.Account.{FilesMayGo, OpeningsAccount, WritesAccount};
ghost use Rattle.raft_log_covers.specs.Account.{RewritesAccount, FilesAreForgotten};
ghost use Rattle.raft_log_covers.specs.Account.{OldRewritesMayGo};

/// By an account of where each cell's last change stands, the append files before the first one
/// that it names may go.
pub fn unnamed_files_may_go()
    ensures covers { FilesMayGo (List ℕ) }
    ensures forgotten { FilesAreForgotten (List ℕ) }
{}

/// The account is true as a queue is opened, and every write keeps it: to the append queue, and to
/// the rewrite queue where each cell that is no longer named gets what the content has.
pub fn accounts_stay_true()
    ensures openings { OpeningsAccount (List ℕ) }
    ensures writes { WritesAccount (List ℕ) }
    ensures rewrites { RewritesAccount (List ℕ) }
{}

/// The rewrite queue is written anew. Once each cell that the account doesn't name has in the new
/// records what the content has, the old records may go from the front, however many of them have
/// gone, and whether or not whole atomic groups have.
pub fn old_rewrites_may_go()
    ensures { OldRewritesMayGo (List ℕ) }
{}
