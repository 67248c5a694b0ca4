//! What commands on a table show of their answers: from the deciding step on they show it, and it is what they answer.

ghost use Rattle.std.specs.Prelude.{◌≡◌, ◌+◌, ◌*◌, ℕ, true, false, is_ok, Option, None, List};
ghost use Rattle.shm_graph.specs.{declared.{ask.Me.Me as AMe, memo.Memo.Memo as AMemo}, Agents.died, Asks.Trail};
ghost use Rattle.shm_graph.specs.{Bounds.command_steps, Tells.after_all, Events.Event as AnEvent};
ghost use Rattle.plans.specs.{CallsControl.{calls_control, calls_does}, CallsFit.CallsFits};
ghost use Rattle.plans.specs.Deciding.{Decides, Foretells, StillRuns};
ghost use Rattle.shm_script.specs.declared.{line.Line.Line as ALine, log.Answer.Answer as AnAnswer};
ghost use Rattle.shm_script.specs.Text.{line_spelled};
ghost use Rattle.shm_table.specs.Command.{Bound.IsCommandShort, Maps.MapSoFar, Sends.SentSoFar};
ghost use Rattle.shm_table.specs.Command.{CommandCall, CommandFits, command_by, command_control, command_effect, command_of};
ghost use Rattle.shm_table.specs.{CopyKey.{Control.{CopyCalls, copy_parts, copy_steered}, copy_plan}, Cutting.Cuts};
ghost use Rattle.shm_table.specs.Del.{Control.{DelCalls, del_parts, del_steered}, del_plan};
ghost use Rattle.shm_table.specs.Effects.{copy_by, copy_effect, copy_home, del_by, del_effect, enter_by, enter_decided, get_effect, is_linked, put_by, put_effect, put_home, put_root_by, put_root_decided, recv_by, recv_effect, recv_home, replace_by, replace_decided, send_key_by, send_key_effect, unlink_by, unlink_decided};
ghost use Rattle.shm_table.specs.{Get.Control.{get_parts, get_steered}, Put.Control.{PutCalls, put_parts, put_steered}};
ghost use Rattle.shm_table.specs.Put.{put_plan};
ghost use Rattle.shm_table.specs.PutRoot.Control.{decided_of, enter_control, replace_control, put_root_control};
ghost use Rattle.shm_table.specs.{PutRoot.DecidesMap, RecvKey.Control.{RecvCalls, recv_parts, recv_steered}};
ghost use Rattle.shm_table.specs.{RecvKey.recv_plan, SendKey.Control.{send_key_parts, send_key_steered}};
ghost use Rattle.shm_table.specs.{Refusals.CommandLeaves, Unlink.Control.unlink_control};

/// Whether an entry has another value block, whether a new entry is linked, whether an entry is taken out, and whether a key comes to have a
/// value block: the answer tells that the deciding step was made, exactly where it was.
pub fn parts_decide()
    ensures replace { Decides replace_control replace_decided (λ m n. replace_by m.plan m.call n) decided_of }
    ensures enter { Decides enter_control enter_decided (λ m n. enter_by m.plan m.call n) is_linked }
    ensures unlink { Decides unlink_control unlink_decided (λ m n. unlink_by m.plan m.call n) is_ok }
    ensures put_root { Decides put_root_control put_root_decided (λ m n. put_root_by m.plan m.call n) decided_of }
{}

/// A command shows what it will answer exactly from its deciding step on, whatever words are found, and it answers what it showed.
pub fn commands_foretell()
    ensures put { Foretells (calls_control put_parts put_steered) (λ a. a) put_effect (λ m n. put_by m.plan m.call n) }
    ensures copy { Foretells (calls_control copy_parts copy_steered) (λ a. a) copy_effect (λ m n. copy_by m.plan m.call n) }
    ensures del { Foretells (calls_control del_parts del_steered) (λ a. a) del_effect (λ m n. del_by m.plan m.call n) }
    ensures get { Foretells (calls_control get_parts get_steered) (λ a. a) get_effect (λ m n. false) }
    ensures send { Foretells (calls_control send_key_parts send_key_steered) (λ a. a) send_key_effect (λ m n. send_key_by m.plan m.call n) }
    ensures recv { Foretells (calls_control recv_parts recv_steered) (λ a. a) recv_effect (λ m n. recv_by m.plan m.call n) }
{}

/// The deciding step of a command that fits is told as the event by which the map changes: that a new entry begins the chain of a bucket, or that
/// an entry has another value block; or that the word that led to the entry loses it.
pub fn deciding_events()
    ensures put { (m : PutCalls) (r0 r : AMemo) (tr : Trail) (n : ℕ) → CallsFits put_parts put_plan m r0 r tr → put_effect m ≡ None → put_by m.plan m.call n ≡ true → DecidesMap m.plan.me.who m.plan.key (put_home m.call) m.plan.block (calls_does put_parts put_plan m n) }
    ensures copy { (m : CopyCalls) (r0 r : AMemo) (tr : Trail) (n : ℕ) → CallsFits copy_parts copy_plan m r0 r tr → copy_effect m ≡ None → copy_by m.plan m.call n ≡ true → DecidesMap m.plan.me.who m.plan.key (copy_home m.call) m.plan.block (calls_does copy_parts copy_plan m n) }
    ensures recv { (m : RecvCalls) (r0 r : AMemo) (tr : Trail) (n : ℕ) → CallsFits recv_parts recv_plan m r0 r tr → recv_effect m ≡ None → recv_by m.plan m.call n ≡ true → DecidesMap m.plan.me.who m.plan.key (recv_home m.call) m.plan.block (calls_does recv_parts recv_plan m n) }
    ensures del { (m : DelCalls) (r0 r : AMemo) (tr : Trail) (n : ℕ) → CallsFits del_parts del_plan m r0 r tr → del_effect m ≡ None → del_by m.plan m.call n ≡ true → Cuts m.plan.me.who m.plan.before m.plan.word m.plan.entry (calls_does del_parts del_plan m n) }
{}

/// No step before the deciding one is such an event: of a put, a copy and a receive for any value block.
pub fn earlier_events()
    ensures put { (m : PutCalls) (r0 r : AMemo) (tr : Trail) (n v : ℕ) → CallsFits put_parts put_plan m r0 r tr → put_effect m ≡ None → put_by m.plan m.call n ≡ false → DecidesMap m.plan.me.who m.plan.key (put_home m.call) v (calls_does put_parts put_plan m n) → ⊥ }
    ensures copy { (m : CopyCalls) (r0 r : AMemo) (tr : Trail) (n v : ℕ) → CallsFits copy_parts copy_plan m r0 r tr → copy_effect m ≡ None → copy_by m.plan m.call n ≡ false → DecidesMap m.plan.me.who m.plan.key (copy_home m.call) v (calls_does copy_parts copy_plan m n) → ⊥ }
    ensures recv { (m : RecvCalls) (r0 r : AMemo) (tr : Trail) (n v : ℕ) → CallsFits recv_parts recv_plan m r0 r tr → recv_effect m ≡ None → recv_by m.plan m.call n ≡ false → DecidesMap m.plan.me.who m.plan.key (recv_home m.call) v (calls_does recv_parts recv_plan m n) → ⊥ }
    ensures del { (m : DelCalls) (n : ℕ) → del_effect m ≡ None → del_by m.plan m.call n ≡ false → Cuts m.plan.me.who m.plan.before m.plan.word m.plan.entry (calls_does del_parts del_plan m n) → ⊥ }
{}

/// Its line is the text of the line that it was made of, and stays so.
pub fn command_lines()
    ensures begun { (me : AMe) (l : ALine) → command_control.line (command_of me l) ≡ line_spelled l }
    ensures stays { (m : CommandCall) (n : ℕ) → command_control.finished m ≡ false → command_control.line (command_control.after m n) ≡ command_control.line m }
{}

/// Whatever it answers, it takes at most 1,638 word steps for each segment of the pool, 300, 2 for each key that it read, 164 for each block
/// that it freed or left on the way, in format 2 320 and 180, and three for each exchange that failed.
pub fn command_bound()
    ensures within { (me : AMe) (l : ALine) (r0 r : AMemo) (tr : Trail) (es : List AnEvent) (b : AnAnswer) → CommandLeaves me l r0 r tr es b → IsCommandShort me l r tr es }
    ensures steps { (g k t : ℕ) → command_steps false g k t ≡ 1638 * g + 2 * k + 164 * t + 300 }
    ensures wide { (g k t : ℕ) → command_steps true g k t ≡ 1638 * g + 2 * k + 180 * t + 320 }
{}

/// It shows what it will answer exactly from its deciding step on, whatever words are found, and it answers what it showed.
pub fn command_foretells()
    ensures { Foretells command_control (λ a. a) command_effect command_by }
{}

/// While it runs the map is what it was when the command began, until its deciding step; and from then on it is as after the answer that it
/// shows. Before its first word step it shows none.
pub fn command_maps()
    ensures runs { (me : AMe) (l : ALine) (start : Trail) (r0 r : AMemo) (tr : Trail) → StillRuns command_control (command_of me l) start → let m = after_all command_control (command_of me l) start in CommandFits m r0 r tr → MapSoFar l (command_effect m) r0 r }
    ensures going { (me : AMe) (l : ALine) (start : Trail) (r0 r : AMemo) (tr : Trail) → let m = after_all command_control (command_of me l) start in command_control.finished m ≡ false → CommandFits m r0 r tr → MapSoFar l (command_effect m) r0 r }
    ensures fresh { (me : AMe) (l : ALine) → command_effect (command_of me l) ≡ None }
{}

/// While it runs nothing was sent since it began, as long as it shows no answer; from its deciding step on, where it shows `Ok`, a send has sent the
/// value block that its key had to the identity of its line, behind all that was sent before, and nothing else; and a command of any other
/// line sends nothing. A client that dies has sent just this.
pub fn command_sends()
    ensures runs { (me : AMe) (l : ALine) (start : Trail) (r0 r : AMemo) (tr : Trail) → StillRuns command_control (command_of me l) start → let m = after_all command_control (command_of me l) start in CommandFits m r0 r tr → SentSoFar l (command_effect m) r0 r }
    ensures going { (me : AMe) (l : ALine) (start : Trail) (r0 r : AMemo) (tr : Trail) → let m = after_all command_control (command_of me l) start in command_control.finished m ≡ false → CommandFits m r0 r tr → SentSoFar l (command_effect m) r0 r }
    ensures dies { (l : ALine) (a : Option AnAnswer) (r0 r : AMemo) → SentSoFar l a r0 r → SentSoFar l a r0 (died r) }
{}
