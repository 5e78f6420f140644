// The cluster's locks and waits are exactly what the answers told, whatever was called.
ghost use Rattle.law.specs.Accounts.{LocksAreTold};

/// Over any memory the locks and waits of the cluster are those that the answers told.
pub fn locks_are_told()
    ensures { LocksAreTold }
{}
