//! What the bytes of a site file tell, for whoever calls its function.

ghost use Rattle.plum_sites.specs.Laws.{StationsAreTold, TargetsAreTold};

/// The bytes of a file determine its sites, or what is wrong first with it.
pub fn files_have_one_answer()
    ensures stations { StationsAreTold }
    ensures targets { TargetsAreTold }
{}
