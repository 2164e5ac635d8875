//! The laws of alerts, each for whoever calls the function.

ghost use Rattle.plum_alert.specs.Laws.{GreatestIs, FirstGivesNone, OneListOfAlerts};

/// What alerts readings give.
pub fn alerts_of_readings()
    ensures greatest { GreatestIs }
    ensures first { FirstGivesNone }
    ensures alerts { OneListOfAlerts }
{}
