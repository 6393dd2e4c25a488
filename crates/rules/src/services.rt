// The nine services, each a rule of its own.
pub mod agc_regulation;
pub mod deep_shaving;
pub mod fixed_fee;
pub mod load_control;
pub mod ramp;
pub mod spinning_reserve;
pub mod start_stop;
pub mod storage_charging;
pub mod unplanned_outage;
