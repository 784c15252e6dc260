//! Why a use of a rule is refused.
use eo_base::FaultName;
use eo_eval::EvalRefused;
use eo_term::TermRefused;
use eo_type::TypeRefused;
use std::alloc::AllocError;

/// Why a use of a rule is refused, or a term that it asks about has no value or no type.
#[derive(Debug, Drop)]
pub enum RuleRefused {
    /// The first check that fails.
    Fault(FaultName),
    /// Out of memory.
    Memory(AllocError),
}

impl From<AllocError> for RuleRefused {
    ghost use Rattle.std.specs.Prelude.{◌≡◌};
    ghost use Rattle.eo_rule.specs.declared.refused.RuleRefused.TheVariants.{Memory};

    ghost from_gives = { λ e r. r ≡ Memory e };

    fn from(e: AllocError) -> RuleRefused {
        RuleRefused::Memory(e)
    }
}

impl From<TermRefused> for RuleRefused {
    ghost use Rattle.std.specs.Prelude.{◌≡◌};
    ghost use Rattle.eo_rule.specs.Answers.{of_term};

    ghost from_gives = { λ e r. r ≡ of_term e };

    fn from(e: TermRefused) -> RuleRefused {
        match e {
            TermRefused::Tall => RuleRefused::Fault(FaultName::TermHeight),
            TermRefused::Memory(e) => RuleRefused::Memory(e),
        }
    }
}

impl From<TypeRefused> for RuleRefused {
    ghost use Rattle.std.specs.Prelude.{◌≡◌};
    ghost use Rattle.eo_rule.specs.Answers.{of_type};

    ghost from_gives = { λ e r. r ≡ of_type e };

    fn from(e: TypeRefused) -> RuleRefused {
        match e {
            TypeRefused::NumberRange => RuleRefused::Fault(FaultName::NumberRange),
            TypeRefused::Tall => RuleRefused::Fault(FaultName::TermHeight),
            TypeRefused::Memory(e) => RuleRefused::Memory(e),
        }
    }
}

impl From<EvalRefused> for RuleRefused {
    ghost use Rattle.std.specs.Prelude.{◌≡◌};
    ghost use Rattle.eo_rule.specs.Answers.{of_eval};

    ghost from_gives = { λ e r. r ≡ of_eval e };

    fn from(e: EvalRefused) -> RuleRefused {
        match e {
            EvalRefused::Memory(e) => RuleRefused::Memory(e),
        }
    }
}
