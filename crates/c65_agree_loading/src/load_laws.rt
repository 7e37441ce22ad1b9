// Laws of loads and of tests of what is loaded, each the contract of a function that does nothing.
ghost use Rattle.c65_agree_loading.specs.LoadLaws.{BankedLoadsDoIn, BankedLoadsTestIn, LoadsDoIn, LoadsTest, LoadsTestIn};

/// What is kept in memory is loaded in each manner.
pub fn loads_do_in()
    ensures { LoadsDoIn }
{}

/// So is what is kept in regbank.
pub fn banked_loads_do_in()
    ensures { BankedLoadsDoIn }
{}

/// What is loaded from memory is tested in each manner.
pub fn loads_test_in()
    ensures { LoadsTestIn }
{}

/// So is what is loaded from regbank.
pub fn banked_loads_test_in()
    ensures { BankedLoadsTestIn }
{}

/// What is loaded is tested.
pub fn loads_test()
    ensures { LoadsTest }
{}
