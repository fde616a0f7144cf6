//! Laws of the definitions, which the functions of this crate are stated by.

ghost use Rattle.std.specs.Prelude.{◌≡◌, ◌≤◌, ◌↔◌, ℕ, List, [], Some, true, false, IsTrue, Contains, map, if◌then◌else◌};
ghost use Rattle.ms_base.specs.declared.keys.Reason.{Reason};
ghost use Rattle.ms_base.specs.declared.keys.Serial.{Serial};
ghost use Rattle.object_tree.specs.Falls.{IsChain, closed_by, falls, falls_with, is_child, is_open_root, leads, reason_of, with_closed};
ghost use Rattle.object_tree.specs.Objects.{AreInOrder, has_name, is_open, named};
ghost use Rattle.object_tree.specs.declared.object.Object.{Object};

/// An object falls exactly where a finite chain of open objects leads to it from an open root.
pub fn falls_are_chains()
    ensures { (objects : List Object) (roots : List Serial) (x : Object) → Contains objects x → (IsTrue (falls_with objects roots x) ↔ ((before : List Object) × IsChain objects roots x before)) }
{}

/// What falls is open, has each open root, and has each open object to which a link leads out of it, children among
/// them.
pub fn falls_are_whole()
    ensures opened { (objects : List Object) (roots : List Serial) (x : Object) → IsTrue (falls_with objects roots x) → IsTrue (is_open x) }
    ensures roots { (objects : List Object) (roots : List Serial) (x : Object) → IsTrue (is_open_root roots x) → IsTrue (falls_with objects roots x) }
    ensures linked { (objects : List Object) (roots : List Serial) (x y : Object) → Contains objects x → Contains objects y → IsTrue (falls_with objects roots x) → IsTrue (is_open y) → IsTrue (leads x y) → IsTrue (falls_with objects roots y) }
    ensures children { (objects : List Object) (roots : List Serial) (x y : Object) → Contains objects x → Contains objects y → IsTrue (falls_with objects roots x) → IsTrue (is_open y) → y.parent ≡ Some x.serial → IsTrue (falls_with objects roots y) }
{}

/// To close what falls closes exactly that and changes nothing else, and nothing falls with the same roots again.
pub fn falls_close_once()
    ensures exactly { (objects : List Object) (roots : List Serial) (reason : Reason) → AreInOrder objects → with_closed (falls objects roots) roots reason objects ≡ map (λ x. if falls_with objects roots x then closed_by (reason_of objects (falls objects roots) roots reason x) x else x) objects }
    ensures once { (objects : List Object) (roots : List Serial) (reason : Reason) → AreInOrder objects → falls (with_closed (falls objects roots) roots reason objects) roots ≡ [] }
{}

/// The object that a name belongs to is the one of the greatest serial.
pub fn names_belong_to_the_latest()
    ensures { (objects : List Object) (name : List ℕ) (x y : Object) → AreInOrder objects → named objects name ≡ Some x → Contains objects y → IsTrue (has_name name y) → y.serial.0 ≤ x.serial.0 }
{}
