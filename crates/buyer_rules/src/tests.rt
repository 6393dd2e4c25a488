// The buyer's rule alone, in his rulebook, and billed.
use crate::charging::billed;
use crate::rulebook::ask_with_voltage;
use crate::voltage_control::VoltageControl;
use rules::account::Account;
use rules::facts::Facts;
use rules::kind::Kind;
use rules::refusal::Refusal;
use rules::rule::Rule;
use rules::sums::Sums;

// A unit of 600,000 kW in June 2025.
fn in_june(kind: Kind, service: u32, x: i32, y: i32) -> Facts {
    Facts {
        kind,
        capacity: 600_000,
        month: 6,
        month_count: 24_305,
        service,
        x,
        y,
    }
}

#[test]
fn voltage_control_alone(rt: HostRuntime) {
    let paid = VoltageControl.ask(&in_june(Kind::Coal, 10, 100, 0));
    assert!(rt; paid == Ok((Account::First, 6_000_000)));
    let wind = VoltageControl.ask(&in_june(Kind::Wind, 10, 100, 0));
    assert!(rt; wind == Err(Refusal::NotCovered));
    let too_long = VoltageControl.ask(&in_june(Kind::Coal, 10, 745, 0));
    assert!(rt; too_long == Err(Refusal::OutOfRange));
}

#[test]
fn voltage_control_in_a_rulebook(rt: HostRuntime) {
    let capped = ask_with_voltage(&in_june(Kind::Coal, 10, 100, 0));
    assert!(rt; capped == Ok((Account::First, 2_000_000)));
    let ours = ask_with_voltage(&in_june(Kind::Coal, 2, 270_000, 0));
    assert!(rt; ours == Ok((Account::First, 62_500)));
    let nobodys = ask_with_voltage(&in_june(Kind::Coal, 11, 0, 0));
    assert!(rt; nobodys == Err(Refusal::NotCovered));
}

#[test]
fn voltage_control_billed(rt: HostRuntime) {
    let sums = billed(&VoltageControl, &in_june(Kind::Hydro, 10, 10, 0));
    assert!(rt; sums == Sums::default().with(Account::First, 600_000));
    let refused = billed(&VoltageControl, &in_june(Kind::Market, 10, 10, 0));
    assert!(rt; refused == Sums::default());
}

// The number of the refusal, or 0.
fn refusal_of(facts: Facts) -> u32 {
    ask_with_voltage(&facts).err().map_or(0, u32::from)
}

#[test]
fn facts_out_of_every_range(rt: HostRuntime) {
    let fair = in_june(Kind::Coal, 4, 0, 0);
    assert!(rt; refusal_of(fair) == 0);
    assert!(rt; refusal_of(Facts { month: 0, ..fair }) == 4, "month 0");
    assert!(rt;
        refusal_of(Facts {
            month_count: 24_304,
            ..fair
        }) == 4,
        "a count of May"
    );
    assert!(rt;
        refusal_of(Facts {
            month_count: 25_205,
            ..fair
        }) == 4,
        "June 2100"
    );
    assert!(rt;
        refusal_of(Facts {
            capacity: 0,
            ..fair
        }) == 4
    );
    assert!(rt;
        refusal_of(Facts {
            capacity: u32::MAX,
            ..fair
        }) == 4
    );
    assert!(rt;
        refusal_of(Facts {
            x: i32::MIN,
            ..fair
        }) == 4
    );
    assert!(rt;
        refusal_of(Facts {
            y: i32::MAX,
            ..fair
        }) == 4
    );
}

#[test]
fn not_named_before_out_of_range(rt: HostRuntime) {
    let fair = in_june(Kind::Coal, 4, 0, 0);
    assert!(rt; refusal_of(Facts { service: 0, ..fair }) == 5);
    assert!(rt;
        refusal_of(Facts {
            service: u32::MAX,
            ..fair
        }) == 5
    );
    assert!(rt;
        refusal_of(Facts {
            kind: Kind::Market,
            month: 0,
            ..fair
        }) == 5
    );
}
