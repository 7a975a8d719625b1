// xᵀC⁻¹y for C = V diag(values) Vᵀ, from the projections of x and y onto the columns of V (expected_returns.rs, `project` and `form`).
ghost use Rattle.std.specs.Prelude.{◌≡◌, ℕ, ◌*◌, ◌<◌, length};
ghost use Rattle.leaves.specs.Numbers.{◌⊖◌, ◌⊗◌};
ghost use Rattle.leaves.specs.Loops.{sum_to, tab, nth};
ghost use Rattle.matrix.specs.Matrix.{at};
ghost use Rattle.matrix.specs.Jacobi.{Decomposition};
ghost use Rattle.rules.specs.BayesStein as BayesStein;
ghost use Rattle.rules.specs.BayesStein.{ratio_of, squared_distance_of};

// The values, and V row by row, of n columns.
#[derive(Clone, Copy)]
pub(crate) struct Decomposed<'a> {
    pub values: &'a [f64],
    pub vectors: &'a [f64],
    pub n: usize,
    ghost values_long: { length values.now ≡ n },
    ghost vectors_long: { length vectors.now ≡ n * n },
}

// yᵢ - a xᵢ.
fn subtract(y: &[f64], a: f64, x: &[f64], out: &mut [f64])
    requires { (length y.now ≡ length out.old) × (length x.now ≡ length out.old) }
    ensures { out.new ≡ tab (length out.old) (λ (i : ℕ). nth y.now i ⊖ a ⊗ nth x.now i) }
{
    for (i, z) in out.iter_mut().enumerate() {
        *z = y[i] - a * x[i];
    }
}

impl Decomposed<'_> {
    // x times column e of V. By index: the column's numbers are n apart.
    fn project_on(&self, e: usize, x: &[f64]) -> f64
        requires { (e < self.now.n) × (length x.now ≡ self.now.n) }
        ensures { result ≡ sum_to self.now.n (λ (i : ℕ). at self.now.vectors.now self.now.n i e ⊗ nth x.now i) }
    {
        let mut s = 0.0;
        for i in 0..self.n {
            s = s + self.vectors[i * self.n + e] * x[i];
        }
        s
    }

    // x times every column of V.
    fn project(&self, x: &[f64], out: &mut [f64])
        requires { (length x.now ≡ self.now.n) × (length out.old ≡ self.now.n) }
        ensures { (d : Decomposition) → d.vectors ≡ self.now.vectors.now → out.new ≡ BayesStein.project self.now.n d (nth x.now) }
    {
        for (e, y) in out.iter_mut().enumerate() {
            *y = self.project_on(e, x);
        }
    }

    // xᵀC⁻¹y, from the projections x and y. By index: three slices at e.
    fn form(&self, x: &[f64], y: &[f64]) -> f64
        requires { (length x.now ≡ self.now.n) × (length y.now ≡ self.now.n) }
        ensures { (d : Decomposition) → d.values ≡ self.now.values.now → result ≡ BayesStein.form self.now.n d x.now y.now }
    {
        let mut s = 0.0;
        for e in 0..self.n {
            s = s + x[e] * y[e] / self.values[e];
        }
        s
    }

    // xᵀC⁻¹y / xᵀC⁻¹x. `p` and `q` are to reckon in. Two forms of two vectors, and the distance below one form of one: no function for both.
    pub(crate) fn ratio(&self, x: &[f64], y: &[f64], p: &mut [f64], q: &mut [f64]) -> f64
        requires { (length x.now ≡ self.now.n) × (length y.now ≡ self.now.n) × (length p.old ≡ self.now.n) × (length q.old ≡ self.now.n) }
        ensures { (d : Decomposition) → d.values ≡ self.now.values.now → d.vectors ≡ self.now.vectors.now → result ≡ ratio_of self.now.n d x.now y.now }
    {
        self.project(x, p);
        self.project(y, q);
        self.form(p, q) / self.form(p, p)
    }

    // zᵀC⁻¹z for z = y - a x. `p` and `q` are to reckon in.
    pub(crate) fn squared_distance(
        &self,
        x: &[f64],
        y: &[f64],
        a: f64,
        p: &mut [f64],
        q: &mut [f64],
    ) -> f64
        requires { (length x.now ≡ self.now.n) × (length y.now ≡ self.now.n) × (length p.old ≡ self.now.n) × (length q.old ≡ self.now.n) }
        ensures { (d : Decomposition) → d.values ≡ self.now.values.now → d.vectors ≡ self.now.vectors.now → result ≡ squared_distance_of self.now.n d x.now y.now a }
    {
        subtract(y, a, x, p);
        self.project(p, q);
        self.form(q, q)
    }
}
