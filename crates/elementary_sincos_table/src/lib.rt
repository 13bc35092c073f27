// Sine and cosine of k / 4: the f64 nearest to the Taylor sums. A static is read by one load; a const array would be built anew at every use.
// Begun, and used by nothing yet: the elementary functions by tables are to rest on it (docs/PORT.md, "Unfinished work").
#![tactic(auto)]

ghost use Rattle.std.specs.Prelude.{◌≡◌, ◌<◌};
ghost use Rattle.elementary_sincos_table.specs.Table.{sine_entry, cosine_entry};

static SINES: [f64; 26] = [
    0.0,
    0.24740395925452294,
    0.479425538604203,
    0.6816387600233341,
    0.8414709848078965,
    0.9489846193555862,
    0.9974949866040544,
    0.9839859468739369,
    0.9092974268256817,
    0.7780731968879212,
    0.5984721441039565,
    0.38166099205233167,
    0.1411200080598672,
    -0.10819513453010837,
    -0.35078322768961984,
    -0.5715613187423437,
    -0.7568024953079282,
    -0.8949893582285835,
    -0.977530117665097,
    -0.999292788975378,
    -0.9589242746631385,
    -0.858934493426592,
    -0.7055403255703919,
    -0.5082790774992584,
    -0.27941549819892586,
    -0.03317921654755682,
];

static COSINES: [f64; 26] = [
    1.0,
    0.9689124217106447,
    0.8775825618903728,
    0.7316888688738209,
    0.5403023058681398,
    0.3153223623952687,
    0.0707372016677029,
    -0.17824605564949209,
    -0.4161468365471424,
    -0.6281736227227391,
    -0.8011436155469337,
    -0.9243023786324636,
    -0.9899924966004454,
    -0.9941296760805463,
    -0.9364566872907963,
    -0.8205593573395608,
    -0.6536436208636119,
    -0.4460874899137928,
    -0.2107957994307797,
    0.03760215288797655,
    0.28366218546322625,
    0.5120854772418407,
    0.70866977429126,
    0.8611924171615208,
    0.960170286650366,
    0.9994494182244994,
];

// Two functions, each one load: one function would take the table as an argument, and promise an entry of either.
pub fn sine(k: u64) -> f64
    requires { k < 26 }
    ensures { result ≡ sine_entry k }
{
    SINES[k as usize]
}

pub fn cosine(k: u64) -> f64
    requires { k < 26 }
    ensures { result ≡ cosine_entry k }
{
    COSINES[k as usize]
}
