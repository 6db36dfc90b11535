//! The lookup theorem, as the contract of a function.
ghost use Rattle.air_lookup.specs.Buses.{BusesAreExposed, FewBusesPass};
ghost use Rattle.air_lookup.specs.Gadgets.{FewGadgetsPass};
ghost use Rattle.air_lookup.specs.Groups.{FewGroupsBalance};
ghost use Rattle.air_lookup.specs.Lookups.{FewBalance, LookupsAreSound, MultisetsAreSound};
ghost use Rattle.air_lookup.specs.Products.{FewProductsAgree};
ghost use Rattle.air_lookup.specs.Theorem.{FewChallengesPass, TablesAreSound};
ghost use Rattle.air_lookup.specs.TupleLookups.{TuplesAreSound};
ghost use Rattle.air_lookup.specs.Tuples.{FewChallengesPassBeside, FewCollide};

use air_field::{DomainExtension, Field};

/// How few challenges pass a lookup argument that doesn't hold. A challenge passes if there is a permutation trace for
/// it with which the report is empty.
///
/// If one value is looked up on each row, in a table of one entry on each row, and some value isn't in the table, then
/// at most twice as many challenges pass as there are rows (clause `tables`). In general, if the multiplicities of some
/// value don't sum to zero over all rows, no more challenges pass than there are entries of other values (`traces`).
/// The clause `tuples` counts pairs of challenges for tuples that are looked up by their fingerprints. The others are
/// about values that other challenges make (`beside`, `collide`), several entries under one constraint (`gadgets`,
/// `groups`), several traces (`buses`, `exposed`), and lists of values without a trace (`balance`, `lookups`,
/// `multisets`, `products`).
///
/// The challenges are elements of an extension that is a field. Clauses that count how often a value is looked up need
/// fewer lookups than the characteristic: `tables`, `tuples`, `lookups` and `multisets`.
pub fn lookups_are_sound<F: Field, EF: DomainExtension<F>>()
    ensures balance { FewBalance EF.over.ring EF.eq }
    ensures groups { FewGroupsBalance EF.over.ring EF.eq }
    ensures products { FewProductsAgree EF.over.ring EF.eq }
    ensures lookups { LookupsAreSound EF.over.ring EF.eq F.CHARACTERISTIC }
    ensures multisets { MultisetsAreSound EF.over.ring EF.eq F.CHARACTERISTIC }
    ensures traces { FewChallengesPass F.ring EF.over F.eq EF.eq }
    ensures gadgets { FewGadgetsPass F.ring EF.over F.eq EF.eq }
    ensures beside { FewChallengesPassBeside F.ring EF.over F.eq EF.eq }
    ensures collide { FewCollide EF.over.ring }
    ensures exposed { BusesAreExposed F.ring EF.over F.eq EF.eq }
    ensures buses { FewBusesPass F.ring EF.over F.eq EF.eq }
    ensures tables { TablesAreSound F.ring EF.over F.eq EF.eq F.CHARACTERISTIC }
    ensures tuples { TuplesAreSound F.ring EF.over F.eq EF.eq F.CHARACTERISTIC }
{}
