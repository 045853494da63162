//! What the program's help says.

/// The version of the program.
pub const VERSION: &str = "0.2.0";

pub const LINES: &str = "\
A script is lines; empty lines and lines that begin with # are skipped.

  begin T       begins a transaction and names it by the label T
  insert T K V  puts the record K=V for transaction T, where there is none
  update T K V  gives the record K that is there the value V
  upsert T K V  puts the record K=V, whether there is one or not
  delete T K    removes the record K that is there
  add T K N     adds N to the number that the record K holds, modulo 2 to the power of 64
  get T K       asks for the value of the record K
  scan T K K    asks for the records from the first key on, below the second
  scan T K *    asks for the records from K on
  prefix T K    asks for the records whose keys begin with K
  save T        sets a savepoint of transaction T, and prints its number
  back T N      rolls transaction T back to its savepoint N
  rollback T    rolls transaction T back
  commit T      commits transaction T, which is told once the log is stable
  force         makes the log stable
  send T        sends the unanswered request of transaction T, first or again
  undo T        does one step of the rollback of transaction T
  low N         tells the data component that no number up to N is sent again
  checkpoint    asks the data component to write its leaves, so that redo may begin
                past the greatest number that was announced by low
  tell          tells the data component how much of the log is stable
  req N         delivers the request numbered N
  rep N         delivers the reply numbered N
  forget        lets every message go: those can't be delivered any more, and the next
                request and the next reply are numbered 1
  split K       splits the leaf that has the key K
  merge K       joins the leaf that has the key K with the leaf after it
  tend          splits one leaf that is large, or joins two that are small
  flush K       writes the leaf that has the key K to its page
  crash C N N   the component C loses what isn't on its devices; of the records of
                its log that aren't stable the first N stay, and of the next one
                the second N bytes
  restart C     opens the component C on its devices
  fail D N      the N-th call of the device D from now fails, once
  connect       starts a session of the two components
  recover       does one step of recovery
  settle        lets the node work until nothing is left to do
  settle N      lets it work for N rounds at most
  table         prints each record of the data component
  log           prints each record of the transaction log
  leaves        prints each leaf of the data component

Behind scan or prefix may stand how its records are told: back, the last one first;
first N, so many at most; last N, so many at most, the last one first; or count, just
how many they are.

T is 1 to 8 lower case letters or digits. K and V are letters and digits, a dot for
the empty text, or # and 1 to 120 bytes, each as two lower case hexadecimal digits; a
key has 1 to 32 bytes, a value 0 to 120. A value of 8 bytes is a number, the greatest
part first. N is a decimal number below 2 to the power of 48, or of 64 where it is
added; of a call it is at least 1. C is tc, the transaction component, or dc, the data
component. D is tclog or dclog, the log of either, or pages, the pages of the data
component's leaves. Words are separated by one space. The whole script is checked
before its first line is run, but where it is interactive. A second begin T gives the
label to another transaction: no line can name the first one then, which keeps its
locks.

Exit status: 0; 2 for a line or a command line outside the grammar, and for a store
that can't be opened; 3 where memory or a device failed; else, with --strict, 4 where
a line was refused.";

pub const CLIENTS: &str = "\
Client S writes the round's number to the record sS, inserts it as the record sSrR for
round R, and commits where R is odd; else it rolls back. After its rounds it reads sS.
Amid the first client's second round the data component crashes and is restarted: on an
engine with three locks while a request waits, with one once all clients have begun.

A line for each client says what it read; then the records follow.

Exit status: 0; 2 for a command line outside the grammar; 3 where memory failed.";

pub const EXPLAINED: &str = "\
Behind each line that changes something it says what its events did, how each open
transaction stands, which keys it holds and what undo does next, how long the log is
and up to where it is stable, what each leaf has captured, which messages have not
arrived, and at a crash what was lost. No line is longer than 100 columns.
undo_shell run --help says what a script is.

Exit status: 0; 2 for a line or a command line outside the grammar; 3 where memory
or a device failed.";

pub const DRAWN: &str = "\
Time runs from left to right, an event a column: the transactions above, then the log,
the messages, and the leaves below. Of more than 300 events just the last 300 are drawn
unless a number is given. undo_shell run --help says what a script is.

Exit status: 0; 2 for a line or a command line outside the grammar; 3 where memory
or a device failed.";

pub const CONTINUING: &str = "Goes on behind a line in which memory or a device failed";

pub const STORING: &str =
    "Keeps the log in this folder, and goes on where the last run on it ended";

pub const READING: &str =
    "Opens the store without a lock and writes nothing to it: what the script does is lost";

pub const CREATING: &str = "Makes the store if it isn't there";

pub const STRICT: &str = "Tells how many lines were refused, and ends with status 4 if any was";

pub const INTERACTIVE: &str =
    "Runs each line as soon as it is read, as on a terminal; a line outside the grammar is refused";

pub const KEEPING: &str =
    "Leaves the log as it is: else one that has grown long is written anew, as compact does, before the script is run";

pub const THE_STORE: &str = "The folder of the store";

pub const CHECKED: &str = "\
It is opened as run --read-only does: without a lock, and nothing is written. What stands
in the log is counted, and what an opening would undo, and how long the log would be if
it were compacted.

Exit status: 0; 2 for a command line outside the grammar, and for a store that can't be
opened; 3 where memory failed.";

pub const DUMPED: &str = "\
A line K=V for each record, in the order of their keys, and then a line rows N that says how
many they are, as the line table of a script prints them: undo_shell load reads that text.
The store is opened as run --read-only does: without a lock, and nothing is written.

Exit status: 0; 2 for a command line outside the grammar, and for a store that can't be
opened; 3 where memory or a write failed.";

pub const LOADED: &str = "\
The text is lines K=V, as undo_shell dump prints them, and behind them the line rows N. The
whole text is checked before the first record is put; then all are put by one transaction,
whether there was a record of the key or not, so that a failure or a kill leaves none of
them. K and V are letters and digits, a dot for the empty text, or # and two lower case
hexadecimal digits for each byte. No other program may have the store open.

Exit status: 0; 2 for a text or a command line outside the grammar, and for a store that
can't be opened; 3 where memory or a device failed.";

pub const MEASURED: &str = "\
It is opened as run --read-only does: without a lock, and nothing is written. The records
are counted, and the bytes of their keys and of their values, the longest of each, and the
leaves that the records fill.

Exit status: 0; 2 for a command line outside the grammar, and for a store that can't be
opened; 3 where memory failed.";

pub const SCRIPT: &str = "The file of the script";

pub const SERVED: &str = "\
It is the data component of a node whose transaction component is another process, tc.
A message is its length in eight bytes, the greatest first, and so many bytes. One that
is no request, or of which the leaves show that nobody may ask it, is dropped. A message
of no bytes is a tick, at which a leaf is split or two are joined that are due. The store
keeps the log of its leaves and their pages; the records that these lack it has from the
other's log, once that has begun a session. Without a store no page is kept, and checkpoints
are refused. Where no more messages come it says on standard error what became of them, and
which records it has.

Exit status: 0; 2 for a command line outside the grammar, and for a store that can't be
opened; 3 where memory, a device or a stream failed.";

pub const PLAYED: &str = "\
It is the transaction component of a node whose data component is another process, dc,
and keeps its log in the store. What the lines of the script come to, and what clients are
told, stands on standard error. The line req N sends request N, rep N waits for reply N and
takes it. At settle messages go until nothing is left to do: at each tick, a message of no
bytes, the request that isn't answered is sent again, and after 24 of these a new session is
begun. Other lines for the data component aren't played.

Exit status: 0; 2 for a line or a command line outside the grammar, for a line of the data
component, and for a store that can't be opened; 3 where memory, a device or a stream
failed, or no more messages come.";

pub const COMPACTED: &str = "\
The store's log then has the records that stand, and nothing of how they came about. Whoever
was left open is undone first. No other program may have the store open.

Exit status: 0; 2 for a command line outside the grammar, and for a store that can't be
opened; 3 where memory or a device failed.";
