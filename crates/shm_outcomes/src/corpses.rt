//! What went through a queue of corpses.

ghost use Rattle.std.specs.{Prelude.{◌≡◌, ◌<◌, ◌∷◌, ◌++◌, List}, List.Contains};
ghost use Rattle.shm_morgue.specs.{declared.rule.Taken.Taken as ATaken, Entries.{IsCarried, Puts, Takes, client_of}};

/// Of two corpses of one client that one medic took, the one that it took first was put first. What it took of a client was put before what of that
/// client was left at the closing, and what was left stands in the order of the puts.
pub fn corpses_stay_in_order()
    ensures taken { (porters : List Puts) (medics : List Takes) (left : List ATaken) → IsCarried porters medics left → (m : Takes) → Contains medics m → (before between after : List ATaken) (x y : ATaken) → m.entries ≡ before ++ x ∷ between ++ y ∷ after → client_of x ≡ client_of y → x.number < y.number }
    ensures behind { (porters : List Puts) (medics : List Takes) (left : List ATaken) → IsCarried porters medics left → (m : Takes) → Contains medics m → (x y : ATaken) → Contains m.entries x → Contains left y → client_of x ≡ client_of y → x.number < y.number }
    ensures left { (porters : List Puts) (medics : List Takes) (left : List ATaken) → IsCarried porters medics left → (m : Takes) → Contains medics m → (before between after : List ATaken) (x y : ATaken) → left ≡ before ++ x ∷ between ++ y ∷ after → client_of x ≡ client_of y → x.number < y.number }
{}
