//! The constraint crate: AIRs recorded as symbolic expressions, and evaluated on concrete rows.
//!
//! A code-only AIR is written with ordinary operators on handles, and `into_air` makes the AIR:
//!
//!     fn counter(alloc: Global) -> Result<FlatAir<BabyBear>, AirError> {
//!         let e = Expressions::new(alloc);
//!         let mut c = Constraints::new(alloc, &e, 2);
//!         let (bit, count) = (e.current(0), e.current(1));
//!         c.assert_bool(bit);
//!         c.when_first_row().assert_zero(count);
//!         c.when_transition().assert_eq(e.next(1), count + bit);
//!         c.into_air()
//!     }
//!
//! A trace of it is audited:
//!
//!     let air = counter(alloc)?;
//!     let trace = trace_of_rows(alloc, &[[1, 0], [0, 1], [1, 1], [0, 2]])?;
//!     let audit = audit_air(alloc, &air, &trace, &[], 0)?;
//!
//! Where that is Ok, and the report lists nothing, each constraint of the AIR is zero at each row. [`print_audit`] prints
//! what an audit found, and [`print_constraints`] the constraints as people read them.
//!
//! A call writes one entry: an operator its step, an assertion its claim and nothing else. [`Constraints::into_listed`]
//! returns the [`Draft`] of all entries, in which the step of each expression is found, and [`Draft::into_air`] makes the
//! AIR of it. Calls over an extension are tested, not proved, to write their entries.
//!
//! | to | call | its promise |
//! |---|---|---|
//! | write a code-only AIR | [`Expressions`], [`Constraints`] | each call writes its own entry; the AIR records them |
//! | the same over an extension | [`ExtExpressions`], [`ExtConstraints`] | the AIR records its draft; the calls themselves are tested |
//! | write one that declares its list | [`author`], [`utils`], [`BaseAir`] | `eval` asserts just the declared list on each builder |
//! | make a trace | [`trace_of_rows`], [`TraceRows`], [`with_bits`], [`word_with_bits`] | the rows and numbers that were given |
//! | check it | [`check_constraints`], [`check_all_constraints`] | the first fault; each row and constraint not zero |
//! | check it with a permutation trace | [`check_all_constraints_with_permutation`] | each row and constraint not zero, the extension's too |
//! | check a row | [`check_row_with_permutation`] | each constraint that isn't zero there, the extension's too |
//! | record an AIR | [`get_all_symbolic_constraints`] | of each constraint its polynomial, at no greater degree |
//! | size the quotient | [`get_max_constraint_degree`] | a bound on the degrees of a recording, the least from three rows on |
//! | compare its shape | [`has_declared_shape`] | as many columns and public values as the AIR declares |
//! | audit | [`audit_air`] | records, checks and sizes: what is recorded is what is tested |
//! | fold | `fold_air`, of the crate air_folder | what is folded is what is recorded, by powers of alpha |
//! | take an AIR in | [`symbolic`], [`from_flat_value`], [`FlatAir`] | what the list spells; its roots are to be zero |
//! | prove more | [`laws`] | bits are the numbers that they pack; sums and xors of words are exact |
//!
//! What users need of the crates below is passed on here. What differs at a call from Rust is in `CALLING.md`.
#![tactic(auto)]

pub mod expressions;
pub mod extension;
pub mod gadgets;
pub mod handles;
pub mod printing;
pub mod rows;

pub use air_audit::Air;
pub use air_audit::AirBuilder;
pub use air_audit::AirBuilderWithContext;
pub use air_audit::AirError;
pub use air_audit::AirLayout;
pub use air_audit::Algebra;
pub use air_audit::AssertAll;
pub use air_audit::AssertAllExt;
pub use air_audit::AssertAllNamed;
pub use air_audit::Audit;
pub use air_audit::BabyBear;
pub use air_audit::BaseAir;
pub use air_audit::BaseEntry;
pub use air_audit::BaseLeaf;
pub use air_audit::Beside;
pub use air_audit::BinomialExtension;
pub use air_audit::BinomialExtensionField;
pub use air_audit::BinomialModulus;
pub use air_audit::BoundaryEnd;
pub use air_audit::BoundaryIoError;
pub use air_audit::BoundaryPublic;
pub use air_audit::CheckError;
pub use air_audit::ConstraintFailure;
pub use air_audit::ConstraintLayout;
pub use air_audit::ConstraintReport;
pub use air_audit::DebugConstraintBuilder;
pub use air_audit::Degrees;
pub use air_audit::DomainExtension;
pub use air_audit::Element;
pub use air_audit::EvaluatedJoined;
pub use air_audit::ExprId;
pub use air_audit::ExprPool;
pub use air_audit::ExtAlgebra;
pub use air_audit::ExtEntry;
pub use air_audit::ExtFieldRing;
pub use air_audit::ExtLeaf;
pub use air_audit::ExtensionBuilder;
pub use air_audit::ExtensionField;
pub use air_audit::Field;
pub use air_audit::FieldRing;
pub use air_audit::FilteredAirBuilder;
pub use air_audit::FlatAir;
pub use air_audit::FlatError;
pub use air_audit::FlatExtAir;
pub use air_audit::FromVar;
pub use air_audit::Goldilocks;
pub use air_audit::Joined;
pub use air_audit::KoalaBear;
pub use air_audit::KoalaBearExtension;
pub use air_audit::Lazy;
pub use air_audit::LeafWeight;
pub use air_audit::MatrixError;
pub use air_audit::Mersenne31;
pub use air_audit::Modulus;
pub use air_audit::Name;
pub use air_audit::NamedAirBuilder;
pub use air_audit::NamedExtensionBuilder;
pub use air_audit::Namespace;
pub use air_audit::NamespaceExt;
pub use air_audit::PairCol;
pub use air_audit::PassthroughNamedAirBuilder;
pub use air_audit::Permutation;
pub use air_audit::PermutationAirBuilder;
pub use air_audit::PrimeField;
pub use air_audit::PrimeField64;
pub use air_audit::Recorded;
pub use air_audit::Residue;
pub use air_audit::RingError;
pub use air_audit::Root;
pub use air_audit::RowMajorMatrix;
pub use air_audit::RowMajorMatrixView;
pub use air_audit::RowWindow;
pub use air_audit::SelfExtension;
pub use air_audit::ShapeError;
pub use air_audit::Spelled;
pub use air_audit::SymLeaf;
pub use air_audit::SymbolicAirBuilder;
pub use air_audit::SymbolicExpr;
pub use air_audit::SymbolicExpression;
pub use air_audit::SymbolicExpressionExt;
pub use air_audit::SymbolicVariable;
pub use air_audit::SymbolicVariableExt;
pub use air_audit::TwoRows;
pub use air_audit::View;
pub use air_audit::ViewPair;
pub use air_audit::VirtualPairCol;
pub use air_audit::WindowAccess;
pub use air_audit::WireLeaf;
pub use air_audit::audit;
pub use air_audit::audit_air;
pub use air_audit::audit_air_with_cap;
pub use air_audit::author;
pub use air_audit::boundary;
pub use air_audit::check_all_constraints;
pub use air_audit::check_all_constraints_with_permutation;
pub use air_audit::check_constraints;
pub use air_audit::check_row_with_permutation;
pub use air_audit::constraint_degree_from_poly_degree;
pub use air_audit::finish_recording;
pub use air_audit::from_flat_value;
pub use air_audit::get_all_symbolic_constraints;
pub use air_audit::get_constraint_layout;
pub use air_audit::get_max_constraint_degree;
pub use air_audit::get_max_constraint_degree_extension;
pub use air_audit::get_symbolic_constraints;
pub use air_audit::get_symbolic_constraints_extension;
pub use air_audit::has_declared_shape;
pub use air_audit::laws;
pub use air_audit::record_these;
pub use air_audit::recorded_air;
pub use air_audit::recorded_airs;
pub use air_audit::resolve;
pub use air_audit::resolve_all;
pub use air_audit::symbolic;
pub use air_audit::to_flat_value;
pub use air_audit::trace_of_rows;
pub use air_audit::traces;
pub use air_audit::utils;
pub use air_audit::with_bits;
pub use air_audit::word_with_bits;
pub use air_draft::Claim;
pub use air_draft::Claimed;
pub use air_draft::Draft;
pub use air_draft::ExtClaimed;
pub use air_draft::ExtDraft;
pub use air_draft::ExtStep;
pub use air_draft::Factor;
pub use air_draft::Fixed;
pub use air_draft::Notes;
pub use air_draft::Operand;
pub use air_draft::Step;
pub use expressions::columns::Column;
pub use expressions::columns::Columns;
pub use expressions::listing::Listing;
pub use expressions::nodes::Expressions;
pub use expressions::view::Expr;
pub use expressions::view::Node;
pub use expressions::windows::Window;
pub use extension::claims::ExtClaims;
pub use extension::constraints::ExtConstraints;
pub use extension::expr::ExtExpr;
pub use extension::shared::ExtExpressions;
pub use handles::claims::Claims;
pub use handles::constraints::Constraints;
pub use printing::print_audit;
pub use printing::print_constraints;
pub use rows::TraceRows;
