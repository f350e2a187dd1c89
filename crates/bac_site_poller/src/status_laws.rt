//! What the status of a site says, whoever answers.

ghost use Rattle.bac_site_poller.specs.Status.{EndsAreCounted, StatusNeverFalls};

/// Whatever a site wants, and whatever comes, its status never falls.
pub fn status_never_falls()
    ensures { StatusNeverFalls }
{}

/// No device that is silent, or is another one, is left out of the status of its site.
pub fn ends_are_counted()
    ensures { EndsAreCounted }
{}
