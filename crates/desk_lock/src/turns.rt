// The object that is shared.

/// How an object of type `T` answers calls, one after another. `K: Turns<T>` is a name for it, of which no value is needed.
pub trait Turns<T> {
    ghost use Rattle.std.specs.Prelude.{ℕ, List, ◌++◌};
    ghost use Rattle.desk_lock.specs.declared.history.Entry.{Entry};
    ghost use Rattle.desk_lock.specs.History.{MayTurn};

    /// What is asked.
    type Call;

    /// What is replied.
    type Reply;

    /// What a turn does: of the state, the call, the reply and the state afterwards.
    ghost step: { T → Self.Call → Self.Reply → T → Type 0 };

    /// Who may ask: of the state at the opening, the caller's number, the history, and the call that it may make then.
    ghost may: { T → ℕ → List (Entry Self.Call Self.Reply) → Self.Call → Type 0 };

    /// Answers a call that may be made. It runs under the lock, and calls nothing that waits.
    fn turn(state: &mut T, call: Self::Call) -> Self::Reply
        requires { MayTurn step may state.old call }
        ensures { step state.old call result state.new };

    // What may be done stays so.
    ghost lasts: { (opened : T) (number : ℕ) (past more : List (Entry Self.Call Self.Reply)) (call : Self.Call) → may opened number past call → may opened number (past ++ more) call };
}
