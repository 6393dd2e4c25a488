// The two rulebooks, put together from services and layers. The meaning of each is its table, service by service.
ghost use Rattle.std.specs.Prelude.{◌≡◌};
ghost use Rattle.rules.specs.Rulebooks.{table, rulebook_1, rulebook_2};
ghost use Rattle.rules.specs.Bounds.{table_bounded};

use crate::account::Account;
use crate::facts::Facts;
use crate::layers::cap::Cap;
use crate::layers::chapters::Chapters;
use crate::layers::grace::Grace;
use crate::layers::season::Season;
use crate::refusal::Refusal;
use crate::rule::Rule;
use crate::services::agc_regulation::AgcRegulation;
use crate::services::deep_shaving::DeepShaving;
use crate::services::fixed_fee::FixedFee;
use crate::services::load_control::LoadControl;
use crate::services::ramp::Ramp;
use crate::services::spinning_reserve::SpinningReserve;
use crate::services::start_stop::StartStop;
use crate::services::storage_charging::StorageCharging;
use crate::services::unplanned_outage::UnplannedOutage;

// March 2025.
const GRACE_ENDS: u32 = 24_302;

const MOST_CHARGED: u32 = 5_000_000;

// Services 1 to 7 as chapters before any other rule.
pub type Payments<R> = Chapters<
    AgcRegulation,
    Chapters<
        DeepShaving,
        Chapters<
            SpinningReserve,
            Chapters<
                StartStop,
                Chapters<Ramp, Chapters<LoadControl, Chapters<StorageCharging, R>>>,
            >,
        >,
    >,
>;

fn payments<R>(regulation: AgcRegulation, shaving: DeepShaving, rest: R) -> Payments<R>
    ensures regulation { result.first ≡ regulation }
    ensures shaving { result.second.first ≡ shaving }
    ensures rest { result.second.second.second.second.second.second.second ≡ rest }
{
    Chapters {
        first: regulation,
        second: Chapters {
            first: shaving,
            second: Chapters {
                first: SpinningReserve,
                second: Chapters {
                    first: StartStop,
                    second: Chapters {
                        first: Ramp,
                        second: Chapters {
                            first: LoadControl,
                            second: Chapters {
                                first: StorageCharging,
                                second: rest,
                            },
                        },
                    },
                },
            },
        },
    }
}

// kept: two types, since one over both needs a trait that gives each its late layers and its table, which is no plainer
// Rulebook 1: services 1 to 7 at rate 10 and factor 10, then season on service 8, then service 9.
#[derive(Drop)]
pub struct Rulebook1 {
    chapters: Payments<Chapters<Season<UnplannedOutage>, FixedFee>>,
    ghost settings: { (chapters.first.rate ≡ 10) × (chapters.second.first.factor ≡ 10) },
}

pub fn rulebook_1() -> Rulebook1 {
    let charges = Chapters {
        first: Season {
            rule: UnplannedOutage,
        },
        second: FixedFee,
    };
    Rulebook1 {
        chapters: payments(
            AgcRegulation { rate: 10 },
            DeepShaving { factor: 10 },
            charges,
        ),
    }
}

impl Rule for Rulebook1 {
    ghost meaning = { λ _ facts. table rulebook_1 facts };

    ghost bounded = { λ rule facts. table_bounded rulebook_1 facts };

    fn ask(&self, facts: &Facts) -> Result<(Account, u32), Refusal> {
        self.chapters.ask(facts)
    }
}

// Rulebook 2: services 1 to 7 at rate 6 and factor 12, then grace on a cap on services 8 and 9.
#[derive(Drop)]
pub struct Rulebook2 {
    chapters: Payments<Grace<Cap<Chapters<UnplannedOutage, FixedFee>>>>,
    ghost settings: { (chapters.first.rate ≡ 6) × (chapters.second.first.factor ≡ 12) },
    ghost grace: { chapters.second.second.second.second.second.second.second.before ≡ 24_302 },
    ghost cap: { chapters.second.second.second.second.second.second.second.rule.limit ≡ 5_000_000 },
}

pub fn rulebook_2() -> Rulebook2 {
    let charges = Chapters {
        first: UnplannedOutage,
        second: FixedFee,
    };
    let late = Grace {
        rule: Cap {
            rule: charges,
            limit: MOST_CHARGED,
        },
        before: GRACE_ENDS,
    };
    Rulebook2 {
        chapters: payments(AgcRegulation { rate: 6 }, DeepShaving { factor: 12 }, late),
    }
}

impl Rule for Rulebook2 {
    ghost meaning = { λ _ facts. table rulebook_2 facts };

    ghost bounded = { λ rule facts. table_bounded rulebook_2 facts };

    fn ask(&self, facts: &Facts) -> Result<(Account, u32), Refusal> {
        self.chapters.ask(facts)
    }
}
