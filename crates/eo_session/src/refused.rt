//! Why a command is not accepted.
use eo_base::FaultName;
use eo_elab::ElabRefused;
use eo_proof::FactRefused;
use eo_rule::RuleRefused;
use eo_shape::ShapeRefused;
use eo_sig::SigRefused;
use std::alloc::AllocError;

/// Why a command is not accepted.
#[derive(Debug, Drop)]
pub enum Refused {
    /// Its first fault.
    Fault(FaultName),
    /// A command before it was refused.
    Ended,
    /// Out of memory.
    Memory(AllocError),
}

impl From<FaultName> for Refused {
    ghost use Rattle.std.specs.Prelude.{◌≡◌};
    ghost use Rattle.eo_session.specs.declared.refused.Refused.TheVariants.{Fault};

    ghost from_gives = { λ name r. r ≡ Fault name };

    fn from(name: FaultName) -> Refused {
        Refused::Fault(name)
    }
}

impl From<AllocError> for Refused {
    ghost use Rattle.std.specs.Prelude.{◌≡◌};
    ghost use Rattle.eo_session.specs.declared.refused.Refused.TheVariants.{Memory};

    ghost from_gives = { λ e r. r ≡ Memory e };

    fn from(e: AllocError) -> Refused {
        Refused::Memory(e)
    }
}

impl From<ShapeRefused> for Refused {
    ghost use Rattle.std.specs.Prelude.{◌≡◌};
    ghost use Rattle.eo_session.specs.declared.refused.Refused.TheVariants.{Fault};
    ghost use Rattle.eo_shape.specs.Reading as shapes;

    ghost from_gives = { λ e r. r ≡ Fault (shapes.fault_of e) };

    fn from(e: ShapeRefused) -> Refused {
        match e {
            ShapeRefused::UnknownCommand => Refused::Fault(FaultName::UnknownCommand),
            ShapeRefused::BadCommand => Refused::Fault(FaultName::BadCommand),
        }
    }
}

impl From<ElabRefused> for Refused {
    ghost use Rattle.std.specs.Prelude.{◌≡◌};
    ghost use Rattle.eo_session.specs.Stepping.{of_elab};

    ghost from_gives = { λ e r. r ≡ of_elab e };

    fn from(e: ElabRefused) -> Refused {
        match e {
            ElabRefused::BadLiteral => Refused::Fault(FaultName::BadLiteral),
            ElabRefused::BadCommand => Refused::Fault(FaultName::BadCommand),
            ElabRefused::Redeclared => Refused::Fault(FaultName::Redeclared),
            ElabRefused::UnknownSymbol => Refused::Fault(FaultName::UnknownSymbol),
            ElabRefused::BadArity => Refused::Fault(FaultName::BadArity),
            ElabRefused::Tall => Refused::Fault(FaultName::TermHeight),
            ElabRefused::Parameters => Refused::Fault(FaultName::Parameters),
            ElabRefused::BadPattern => Refused::Fault(FaultName::BadPattern),
            ElabRefused::Memory(e) => Refused::Memory(e),
        }
    }
}

impl From<SigRefused> for Refused {
    ghost use Rattle.std.specs.Prelude.{◌≡◌};
    ghost use Rattle.eo_session.specs.Stepping.{of_sig};

    ghost from_gives = { λ e r. r ≡ of_sig e };

    fn from(e: SigRefused) -> Refused {
        match e {
            SigRefused::Redeclared => Refused::Fault(FaultName::Redeclared),
            SigRefused::BadPattern => Refused::Fault(FaultName::BadPattern),
            SigRefused::UnboundParam => Refused::Fault(FaultName::UnboundParam),
            SigRefused::Memory(e) => Refused::Memory(e),
        }
    }
}

impl From<FactRefused> for Refused {
    ghost use Rattle.std.specs.Prelude.{◌≡◌};
    ghost use Rattle.eo_session.specs.Stepping.{of_fact};

    ghost from_gives = { λ e r. r ≡ of_fact e };

    fn from(e: FactRefused) -> Refused {
        match e {
            FactRefused::Redeclared => Refused::Fault(FaultName::Redeclared),
            FactRefused::ScopeDepth => Refused::Fault(FaultName::ScopeDepth),
            FactRefused::Memory(e) => Refused::Memory(e),
        }
    }
}

impl From<RuleRefused> for Refused {
    ghost use Rattle.std.specs.Prelude.{◌≡◌};
    ghost use Rattle.eo_session.specs.Stepping.{of_rule};

    ghost from_gives = { λ e r. r ≡ of_rule e };

    fn from(e: RuleRefused) -> Refused {
        match e {
            RuleRefused::Fault(name) => Refused::Fault(name),
            RuleRefused::Memory(e) => Refused::Memory(e),
        }
    }
}
